// What a script came to, for the lines at its end.
use std::fmt;

#[derive(Clone, Copy, Default)]
pub struct Tally {
    pub trees: u64,
    pub nodes: u64,
    pub bytes: u64,
    // by number; a map would take memory at a refusal, and could be refused it
    refusals: [u64; 12],
}

impl Tally {
    pub(crate) fn refuse(&mut self, number: u8) {
        if let Some(count) = self.refusals.get_mut(usize::from(number)) {
            *count = count.saturating_add(1);
        }
    }
}

impl fmt::Display for Tally {
    fn fmt<W: fmt::Write>(&self, f: &mut fmt::Formatter<W>) -> fmt::Result {
        let Tally {
            trees,
            nodes,
            bytes,
            refusals,
        } = *self;
        write!(f, "summary: trees {trees}, nodes {nodes}, bytes {bytes}")?;
        for (number, count) in refusals.iter().enumerate() {
            if *count > 0 {
                write!(f, "\nrefused with {number}: {count}")?;
            }
        }
        Ok(())
    }
}
