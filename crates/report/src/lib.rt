// The report over a stream of stored files, one after the other.
#![tactic(auto)]

pub mod window;

ghost use Rattle.std.specs.Prelude.{◌≡◌};
ghost use Rattle.lists.specs.Decides.{Decides};
ghost use Rattle.report.specs.Entry.{Told};
ghost use Rattle.report.specs.Report.{GoesOn, no_report, Next};
ghost use Rattle.report.specs.Total.{with_entry, Countable};

use coins::{Sweep, tally};
use refusals::Refusal;
use stored::{FILE_LIMIT, forms, records};

// How many files of a stream are read, and a number of coins that no file exceeds.
pub const MOST_FILES: u64 = 200;

pub const MOST_COINS: u64 = 1 << 25;

// What the report says of an accepted file: what all coins tell, and where the file ends.
#[derive(Clone, Copy, Debug, PartialEq, Eq)]
pub struct Entry {
    pub sweep: Sweep,
    pub end: usize,
}

// The accepted files, the sum of their coins and the sum of their rejects.
#[derive(Clone, Copy, Debug, PartialEq, Eq)]
pub struct Total {
    pub files: u64,
    pub coins: u64,
    pub rejects: u64,
}

// The report so far: the number of files read, what it says of the latest, if one was read, and the total.
#[derive(Clone, Copy, Debug, PartialEq, Eq)]
pub struct Report {
    pub read: u64,
    pub latest: Option<Result<Entry, Refusal>>,
    pub total: Total,
}

// The file at the front of the bytes: the setting's checks, 6 where its file would exceed the limit,
// the records' checks; then all coins. Others may follow it.
//
// Ruled out: 12 for the bytes after the file, which are the next one's; an end one byte late.
pub fn front(bytes: &[u8]) -> Result<Entry, Refusal>
    ensures { Told bytes.now result }
{
    let setting = records::setting_of(bytes)?;
    let p = forms::layout(forms::form_of(bytes), setting.field, setting.space.k);
    if FILE_LIMIT < p.end {
        return Err(Refusal::Length);
    }
    let r = stored::read_symbols(bytes, setting)?;
    let end = r.end;
    let sweep = tally::all_coins(&bytes[..end], r);
    Ok(Entry { sweep, end })
}

// The report before the first file.
//
// Ruled out: a file that is read, or counted, before the first.
pub fn start() -> Report
    ensures { result ≡ no_report }
{
    Report {
        read: 0,
        latest: None,
        total: Total {
            files: 0,
            coins: 0,
            rejects: 0,
        },
    }
}

// Whether one more file is read: the latest was not refused, the files are fewer than MOST_FILES, and
// the total is no more than so many files can have.
//
// Ruled out: a 201st file; a file after a refused one, whose end is not known.
pub fn goes_on(report: Report) -> bool
    ensures { Decides result (GoesOn report) }
{
    let read = report.read;
    let t = report.total;
    if MOST_FILES <= read {
        return false;
    }
    let most = read * MOST_COINS;
    if let Some(Err(_)) = report.latest {
        return false;
    }
    t.files <= read && t.coins <= most && t.rejects <= most
}

// A total with one file more; a refused one does not count.
fn with(t: Total, file: Result<Entry, Refusal>) -> Total
    requires { Countable t file }
    ensures { result ≡ with_entry t file }
{
    match file {
        Ok(e) => Total {
            files: t.files + 1,
            coins: t.coins + e.sweep.coins,
            rejects: t.rejects + e.sweep.rejects,
        },
        Err(_) => t,
    }
}

// The report with one more file, at the front of the bytes; as it came where it does not go on or
// there are no bytes.
//
// Ruled out: a total that counts a refused file; a total with the coins of another file.
pub fn next(report: Report, bytes: &[u8]) -> Report
    ensures { Next bytes.now report result }
{
    if bytes.is_empty() || !goes_on(report) {
        return report;
    }
    let read = report.read + 1;
    let latest = front(bytes);
    Report {
        read,
        latest: Some(latest),
        total: with(report.total, latest),
    }
}
