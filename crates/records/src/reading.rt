//! Taking the first record off some bytes.
ghost use Rattle.std.specs.Prelude.{◌≡◌, true, MatchOption};
ghost use Rattle.records.specs.Bytes.{cut_short, First};

/// The record that some bytes begin with, and the bytes after it.
#[derive(Clone, Copy)]
pub struct Head<'a> {
    pub kind: u16,
    pub payload: &'a [u8],
    pub rest: &'a [u8],
}

/// Takes the first record off some bytes; `None` where they hold no whole record.
pub fn first_record<'a>(bytes: &'a [u8]) -> Option<Head<'a>>
    ensures { MatchOption result (cut_short bytes.now ≡ true) (λ h. First bytes.now h.kind h.payload.now h.rest.now) }
{
    let [a, b, c, d, after @ ..] = bytes else {
        return None;
    };
    let length = u16::from_le_bytes([*a, *b]);
    let kind = u16::from_le_bytes([*c, *d]);
    let (payload, rest) = after.split_at_checked(usize::from(length))?;
    Some(Head {
        kind,
        payload,
        rest,
    })
}
