// Hexadecimal words in lines, for the programs whose output is compared. What is written is
// compared and not proved, so no function here says anything of it.
#![tactic(auto)]

use std::io::Write;
use std::{fmt, io};

// Words that are printed with eight digits each and a space between each two.
#[derive(Clone, Copy, Debug)]
pub struct Words<'a>(pub &'a [u32]);

impl fmt::Display for Words<'_> {
    // The words on one line.
    fn fmt<W: fmt::Write>(&self, f: &mut fmt::Formatter<W>) -> fmt::Result {
        if let Some((last, front)) = self.0.split_last() {
            for word in front {
                write!(f, "{word:08X} ")?;
            }
            write!(f, "{last:08X}")?;
        }
        Ok(())
    }
}

// Writes the words three to a line: the vertices or the triangles that they are. One or two words
// that are left at the end are not written. Each caller cuts the slice to as many as it has: a
// count that is handed over beside the slice would have to be held against its length here.
pub fn write_triples<W: Write>(out: &mut W, words: &[u32]) -> io::Result<()> {
    let (triples, _) = words.as_chunks::<3>();
    for triple in triples {
        writeln!(out, "{}", Words(triple))?;
    }
    Ok(())
}
