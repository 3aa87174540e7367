// What the entries answer, and how they end. specs/Entries.antt says what an answer and the tables at exit are in the definition's terms.
#![tactic(auto)]

ghost use Rattle.std.specs.Prelude.{◌≡◌, List, ℕ, length, replicate};
ghost use Rattle.fmt.specs.Text.{Wrote};
ghost use Rattle.mdf4.specs.Layout.{Layout};
ghost use Rattle.mdf4.specs.Answers.{Lent, fitted, exit};
ghost use Rattle.file_layout.specs.Tables.{Filled, Keeps};
ghost use Rattle.file_layout.specs.declared.LentTables.{LentTables};
ghost use Rattle.answers.specs.Entries.{Fits, Ends, Settled};

use blocks::error::MdfError;
use file_layout::{LentTables, Rows};

// What an entry answers where it accepts: the rows of each table and the bytes of the output in use. `bytes` of a path is the number of
// its words, of the preview that of its counts; `total` is the counts' total, and 0 of any other entry.
#[derive(Clone, Copy, PartialEq, Eq)]
pub struct Accepted {
    pub rows: Rows,
    pub bytes: usize,
    pub total: u64,
}

// How every entry ends: a refusal leaves the tables and the output zero.
pub fn settle(
    answer: Result<Accepted, MdfError>,
    tables: &mut LentTables<'_>,
    output: &mut [u8],
) -> Result<Accepted, MdfError>
    ensures answer { result ≡ answer }
    ensures settled { Settled answer tables.old output.old tables.new output.new }
    ensures keeps { Keeps tables.old tables.new }
{
    if answer.is_err() {
        tables.zero();
        output.fill(0);
    }
    answer
}

// How the entries with an output of bytes go on behind their text, of which `bytes` bytes were to be written. They fit, or it is refusal
// 14.
pub fn fit(rows: Rows, bytes: usize, out: &[u8]) -> Result<Accepted, MdfError>
    ensures exit { (n : Lent) (y : Layout) (p t : List ℕ) (tables : LentTables) → Filled n y p rows tables → length out.now ≡ n.out → Wrote (replicate n.out 0) 0 t out.now bytes → Ends n (exit n (fitted n.out y p t)) result tables out.now }
    ensures fits { Fits result (length out.now) }
{
    let lent = out.len();
    if lent < bytes {
        return Err(MdfError::OutputTooShort {
            lent: lent as u64,
            needed: bytes as u64,
        });
    }
    Ok(Accepted {
        rows,
        bytes,
        total: 0,
    })
}
