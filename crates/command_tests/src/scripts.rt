//! Lines of a script: calls, lines that are none, and lines with nothing in them.
use commands::question::Question;
use commands::script::{Call, Line};
use commands::total::CostKind;

// Whether a text is a line with this call, written as it stands.
fn is_call(rt: &HostRuntime, text: &str, call: Call) -> bool {
    let expected = Line::Call { text, call };
    Line::of(rt.alloc(), text).is_ok_and(|line| line == expected)
}

// Whether a text is this line.
fn is_line(rt: &HostRuntime, text: &str, expected: Line) -> bool {
    Line::of(rt.alloc(), text).is_ok_and(|line| line == expected)
}

#[test]
fn calls_on_links(rt: HostRuntime) {
    let surcharge = Call::Surcharge {
        link: 5,
        amount: 70_000,
    };
    assert!(rt; is_call(&rt, "close 2", Call::Close { link: 2 }));
    assert!(rt; is_call(&rt, "reopen 65535", Call::Reopen { link: 65535 }));
    assert!(rt; is_call(&rt, "surcharge 5 70000", surcharge));
    assert!(rt; is_call(&rt, "link 3", Call::Link { link: 3 }));
}

#[test]
fn calls_of_the_planner(rt: HostRuntime) {
    let quote = |kind| Question::Quote {
        root: 0,
        target: 5,
        kind,
    };
    let survey = |kind| Question::Survey { root: 0, kind };
    let by_length = CostKind::Length;
    let by_poles = CostKind::PolesFirst;
    assert!(rt; is_call(&rt, "quote 0 5", Call::Ask(quote(by_length))));
    assert!(rt; is_call(&rt, "quote 0 5 length", Call::Ask(quote(by_length))));
    assert!(rt; is_call(&rt, "quote 0 5 poles", Call::Ask(quote(by_poles))));
    assert!(rt; is_call(&rt, "survey 0", Call::Ask(survey(by_length))));
    assert!(rt; is_call(&rt, "survey 0 poles", Call::Ask(survey(by_poles))));
}

#[test]
fn calls_on_circuits(rt: HostRuntime) {
    let hold = |kind| Call::Hold {
        circuit: 7,
        root: 0,
        target: 5,
        kind,
    };
    let certificate = |file| Call::Certificate { circuit: 7, file };
    assert!(rt; is_call(&rt, "hold 7 0 5", hold(CostKind::Length)));
    assert!(rt; is_call(&rt, "hold 7 0 5 length", hold(CostKind::Length)));
    assert!(rt; is_call(&rt, "hold 7 0 5 poles", hold(CostKind::PolesFirst)));
    assert!(rt; is_call(&rt, "confirm 255", Call::Confirm { circuit: 255 }));
    assert!(rt; is_call(&rt, "withdraw 0", Call::Withdraw { circuit: 0 }));
    assert!(rt; is_call(&rt, "release 7", Call::Release { circuit: 7 }));
    assert!(rt; is_call(&rt, "certificate 7", certificate(None)));
    assert!(rt; is_call(&rt, "certificate 7 out.cert", certificate(Some("out.cert"))));
    assert!(rt; is_call(&rt, "circuits", Call::Circuits));
}

#[test]
fn blanks_and_comments(rt: HostRuntime) {
    let close = Line::Call {
        text: "close  2",
        call: Call::Close { link: 2 },
    };
    assert!(rt; is_line(&rt, "  close  2  # for repair # until noon", close));
    for text in ["", "   ", "#", "# close 2", "  # close 2"] {
        assert!(rt; is_line(&rt, text, Line::Nothing), "{text:?}");
    }
}

#[test]
fn lines_of_no_call(rt: HostRuntime) {
    let lines = [
        "close",
        "close 2 3",
        "close 65536",
        "close -1",
        "close two",
        "surcharge 5",
        "surcharge 5 4294967296",
        "quote 0",
        "quote 0 5 metres",
        "quote 0 5 poles 1",
        "survey",
        "survey 0 5",
        "hold 7 0",
        "hold 256 0 5",
        "hold 7 0 5 poles 1",
        "confirm",
        "withdraw 7 8",
        "release seven",
        "certificate",
        "certificate 7 out.cert 8",
        "circuits 7",
        "link",
        "links",
        "board",
    ];
    for text in lines {
        assert!(rt; is_line(&rt, text, Line::NoCall), "{text:?}");
    }
}
