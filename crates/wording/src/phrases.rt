// The words that a table has for something, with a name where they ask for it.
use std::fmt;

// In the line of a table @ stands for the name. A format string cannot stand in a table.
#[derive(Clone, Copy)]
pub struct Phrase<'a> {
    pub line: &'static str,
    pub name: &'a str,
}

impl fmt::Display for Phrase<'_> {
    fn fmt<W: fmt::Write>(&self, f: &mut fmt::Formatter<W>) -> fmt::Result {
        let mut rest = self.line;
        while let Some(mark) = rest.find('@') {
            write!(f, "{}{}", &rest[..mark], self.name)?;
            rest = &rest[mark + 1..];
        }
        f.write_str(rest)
    }
}
