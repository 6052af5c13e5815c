// What the program prints.
use recorder::{Reading, Reply};
use std::fmt;

#[derive(Drop)]
pub struct ReplyText(pub Reply);

impl fmt::Display for ReplyText {
    fn fmt<W: fmt::Write>(&self, f: &mut fmt::Formatter<W>) -> fmt::Result {
        match self.0 {
            Ok(None) => write!(f, "accepted"),
            Ok(Some(reading)) => write!(f, "{}", ReadingText(reading)),
            Err(refusal) => write!(f, "refused={refusal}"),
        }
    }
}

#[derive(Drop)]
struct ReadingText(Reading);

impl fmt::Display for ReadingText {
    fn fmt<W: fmt::Write>(&self, f: &mut fmt::Formatter<W>) -> fmt::Result {
        let value = self.0.value;
        let millimetres = self.0.millimetres;
        let remainder = self.0.remainder;
        write!(f, "value={value} mm={millimetres} rest={remainder}")
    }
}

// Numbers, each with a space before it.
#[derive(Drop)]
pub struct Items<'a>(pub &'a [u8]);

impl fmt::Display for Items<'_> {
    fn fmt<W: fmt::Write>(&self, f: &mut fmt::Formatter<W>) -> fmt::Result {
        for item in self.0 {
            write!(f, " {item}")?;
        }
        Ok(())
    }
}
