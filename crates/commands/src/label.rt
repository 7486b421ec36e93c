//! What a site is called.
use sheets::names::Names;
use std::fmt;
use std::str::from_utf8;

/// A site by its name, or by its number where it has no name.
#[derive(Clone, Copy)]
pub struct Label<'a> {
    site: u16,
    name: Option<&'a str>,
}

impl<'a> Label<'a> {
    /// The label of a site by the names of a sheet, if there are any.
    pub fn of(site: u16, names: Option<&Names<'a>>) -> Label<'a> {
        let name = names
            .and_then(|names| names.name(site))
            .and_then(|bytes| from_utf8(bytes).ok());
        Label { site, name }
    }
}

impl fmt::Display for Label<'_> {
    fn fmt<W: fmt::Write>(&self, f: &mut fmt::Formatter<W>) -> fmt::Result {
        match self.name {
            Some(name) => f.write_str(name),
            None => write!(f, "{}", self.site),
        }
    }
}
