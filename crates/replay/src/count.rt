// What is counted of a file, and of one record.
use std::fmt;
use std::ops::AddAssign;

#[derive(Clone, Copy, Default)]
pub struct Count {
    sheets: u64,
    differ: u64,
    trees: u64,
    misjudged: u64,
}

impl Count {
    pub fn sheet(differs: bool) -> Count {
        Count {
            sheets: 1,
            differ: u64::from(differs),
            ..Count::default()
        }
    }

    pub fn tree(agrees: bool) -> Count {
        Count {
            trees: 1,
            misjudged: u64::from(!agrees),
            ..Count::default()
        }
    }
}

impl AddAssign for Count {
    // No sum comes near wrapping.
    fn add_assign(&mut self, other: Count) {
        self.sheets = self.sheets.wrapping_add(other.sheets);
        self.differ = self.differ.wrapping_add(other.differ);
        self.trees = self.trees.wrapping_add(other.trees);
        self.misjudged = self.misjudged.wrapping_add(other.misjudged);
    }
}

impl fmt::Display for Count {
    fn fmt<W: fmt::Write>(&self, f: &mut fmt::Formatter<W>) -> fmt::Result {
        write!(
            f,
            "sheets={} differ={} trees={} misjudged={}",
            self.sheets, self.differ, self.trees, self.misjudged
        )
    }
}
