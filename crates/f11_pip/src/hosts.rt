//! Files of the host that are put on a volume by one command, each under its own name.
use crate::outcome::Failure;

/// The words of files of the host: the first one, and those behind it.
#[derive(Clone, Copy)]
pub struct Hosts<'a> {
    pub first: &'a str,
    pub others: &'a [String],
}

impl<'a> Hosts<'a> {
    /// The file in this place, from 0.
    pub fn at(&self, at: usize) -> &'a str {
        match at.checked_sub(1) {
            Some(behind) => match self.others.get(behind) {
                Some(word) => word.as_str(),
                None => self.first,
            },
            None => self.first,
        }
    }

    /// All of them, in order.
    pub fn paths(&self, rt: &HostRuntime) -> Result<Vec<&'a str>, Failure> {
        let mut paths = Vec::new(rt.alloc());
        for at in 0..self.others.len() + 1 {
            if paths.push(self.at(at)).is_err() {
                return Err(Failure::NoMemory);
            }
        }
        Ok(paths)
    }
}
