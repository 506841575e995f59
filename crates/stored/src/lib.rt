// The stored file, in two forms: three records, numbers lowest byte first.
#![tactic(auto)]

pub mod bytes;
mod check;
pub mod forms;
pub mod records;
pub mod small;

ghost use Rattle.std.specs.Prelude.{◌≡◌, ◌^◌};
ghost use Rattle.stored.specs.Bytes.{packed_size};
ghost use Rattle.stored.specs.File.{word_start, proof_start, form_in, degree_in, dim_in, narrow_in};
ghost use Rattle.stored.specs.Reader.{symbol_checks, prefix_checks, file_checks, SettingRead, Told, PartTold};
ghost use Rattle.stored.specs.Check.{AnsweredFile};
ghost use Rattle.proximity.specs.Dim.{S};

use proximity::tables;
use refusals::Refusal;
use space::Setting;
use verifier::Verdict;

// The most bytes of a file that a program takes or makes.
pub const FILE_LIMIT: usize = 40000;

// The largest dimension whose stored file is within the limit, and the length of its proof.
pub const SMALL: usize = 8;

pub const SMALL_PROOF: usize = 16128;

// The two forms of a stored file: they differ in their marks, in the shift, which form 2 alone
// has, and in the bytes of a symbol.
#[derive(Clone, Copy)]
pub enum Form {
    One,
    Two,
}

// Whether symbols take one byte each, where those of the word and of the proof begin, and where the
// last record ends.
#[derive(Clone, Copy)]
pub struct Layout {
    pub narrow: bool,
    pub word: usize,
    pub proof: usize,
    pub end: usize,
}

// The form, the setting, whether symbols take one byte each, where those of the word and of the proof
// begin, and where the last record ends.
#[derive(Clone, Copy)]
pub struct Reading {
    pub form: Form,
    pub setting: Setting,
    pub narrow: bool,
    pub word: usize,
    pub proof: usize,
    pub end: usize,
}

// Reads the word's record and the proof's, past the record of a checked setting.
pub fn read_symbols(file: &[u8], setting: Setting) -> Result<Reading, Refusal>
    requires { SettingRead file.now setting }
    ensures { Told (symbol_checks (form_in file.now) file.now (dim_in file.now) (degree_in file.now)) file.now result }
{
    let form = forms::form_of(file);
    let k = setting.space.k;
    records::check_symbols(setting.field, file, form, k)?;
    let p = forms::layout(form, setting.field, k);
    Ok(Reading {
        form,
        setting,
        narrow: p.narrow,
        word: p.word,
        proof: p.proof,
        end: p.end,
    })
}

// Reads three records from the front of the bytes; others may follow.
//
// Ruled out: a count that is compared before the mark, since a record with neither gets 11; an end
// before the proof's symbols, since it is where they end.
pub fn read_prefix(file: &[u8]) -> Result<Reading, Refusal>
    ensures { Told (prefix_checks file.now) file.now result }
{
    let setting = records::setting_of(file)?;
    read_symbols(file, setting)
}

// Reads a stored file.
//
// Ruled out: 11 for a count that is not the one of the setting, since that gets 12; a reading of a file
// with a byte after its last record.
pub fn read(file: &[u8]) -> Result<Reading, Refusal>
    ensures { Told (file_checks file.now) file.now result }
{
    let r = read_prefix(file)?;
    if r.end < file.len() {
        return Err(Refusal::WrongCount);
    }
    Ok(r)
}

// The word's bytes in a stored file.
//
// Ruled out: the word's record with its mark and count, since the part has the bytes of 2^k symbols; a part
// of a file whose proof has a symbol out of range, since that gets 9.
pub fn word_part(file: &[u8]) -> Result<&[u8], Refusal>
    ensures { PartTold file.now (word_start (form_in file.now) (dim_in file.now)) (packed_size (narrow_in file.now) (2 ^ dim_in file.now)) result }
{
    let places = read(file)?;
    let start = places.word;
    let end = places.proof - 6;
    Ok(&file[start..end])
}

// The proof's bytes in a stored file.
//
// Ruled out: an empty part for an accepted file of dimension 7, whose proof has 896 symbols; a part of a
// refused file.
pub fn proof_part(file: &[u8]) -> Result<&[u8], Refusal>
    ensures { PartTold file.now (proof_start (form_in file.now) (degree_in file.now) (dim_in file.now)) (packed_size (narrow_in file.now) (S (dim_in file.now))) result }
{
    let r = read(file)?;
    let start = r.proof;
    let end = r.end;
    Ok(&file[start..end])
}

// The checker for one coin over a stored file: the file's checks, then 8; then the verdict, with
// the number of symbols read, and a reject with its degree and dimension. It writes nothing.
//
// Ruled out: 8 for a refused file with a coin out of range, since the file's checks come first; a
// verdict on a file with a symbol out of range that the coin does not read, since that gets 9.
pub fn check_file(file: &[u8], coin: u64) -> Result<Verdict, Refusal>
    ensures { AnsweredFile file.now coin result }
{
    let found = read(file)?;
    let setting = found.setting;
    if coin >> tables::coin_bits(setting.space.k) != 0 {
        return Err(Refusal::NoCoin);
    }
    check::verdict(
        setting.field,
        setting.space,
        file,
        found.narrow,
        found.word,
        found.proof,
        coin,
    )
}
