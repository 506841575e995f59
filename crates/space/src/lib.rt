// A checked setting: the field, the span of the basis by the images of its basis elements, and the
// shift of that span.
//
// W_j(x) is the product of x - a over a in the span of the first j basis elements. The normalised
// image of number j of x is W_j(x) / W_j(b_(j+1)); it is additive in x.
#![tactic(auto)]

pub mod elements;
pub mod upper;
pub mod values;

ghost use Rattle.std.specs.Prelude.{◌≡◌, ◌<◌, ◌≤◌, ◌^◌, length};
ghost use Rattle.lists.specs.All.{Below};
ghost use Rattle.field.specs.Binary.{degree, Irreducible};
ghost use Rattle.field.specs.Products.{Sized};
ghost use Rattle.lists.specs.Answers.{Answers};
ghost use Rattle.refusals.specs.Refusal.{answer_of};
ghost use Rattle.space.specs.Setting.{Tabled, padded_of, basis_checks, space_checks, Made, SettledBy, Settled};
ghost use Rattle.space.specs.Sizes.{max_dim};

use field::Field;
use refusals::Refusal;

// The largest dimension. The sizes of arrays follow from it.
pub const MAX: usize = 14;

// The table of a space: 16 places for each basis element.
pub const CELLS: usize = 16 * MAX;

// Lists for the first half of a basis, with a place for each row.
pub const LANE_CELLS: usize = (MAX / 2) << (MAX - MAX / 2);

// The symbols of the longest row.
pub const MAX_LINE: usize = 1 << (MAX / 2 + 3);

// The coefficients of the longest word.
pub const MAX_COEFFICIENTS: usize = 1 << (MAX - 3);

// The symbols of the longest word.
pub const MAX_WORD: usize = 1 << MAX;

// The dimension, and the normalised image of number j of b_(i+1) at 16 * i + j.
#[derive(Clone, Copy)]
pub struct Space {
    pub k: usize,
    pub images: [u16; CELLS],
}

// The basis, the steps W_j(b_(j+1)) and their inverses, each with zeros past the dimension. Position
// i of a word belongs to the shift plus element i.
#[derive(Clone, Copy)]
pub struct Setting {
    pub field: Field,
    pub space: Space,
    pub basis: [u16; 16],
    pub shift: u16,
    pub steps: [u16; 16],
    pub inverses: [u16; 16],
}

// The images, steps and inverses of an independent basis.
#[derive(Clone, Copy)]
pub struct Tables {
    pub images: [u16; CELLS],
    pub steps: [u16; 16],
    pub inverses: [u16; 16],
}

// The tables of a basis, or none where it is dependent: exactly when a step is 0.
fn tabulate(f: Field, basis: &[u16]) -> Option<Tables>
    requires { Sized f × Irreducible f.modulus × (length basis.now ≤ max_dim) × Below (2 ^ degree f.modulus) basis.now }
    ensures { Tabled f.modulus basis.now result }
{
    let mut images = [0u16; CELLS];
    let mut steps = [0u16; 16];
    let mut inverses = [0u16; 16];
    for (i, x) in basis.iter().enumerate() {
        let s = values::fill_row(f, i, *x, &steps, &inverses, &mut images);
        if s == 0 {
            return None;
        }
        steps[i] = s;
        inverses[i] = field::inverse::inverse(f, s);
        images[17 * i] = 1;
    }
    Some(Tables {
        images,
        steps,
        inverses,
    })
}

// The basis, with zeros past its end.
fn padded(basis: &[u16]) -> [u16; 16]
    requires { length basis.now ≤ max_dim }
    ensures { result ≡ padded_of basis.now }
{
    let mut out = [0u16; 16];
    out[..basis.len()].copy_from_slice(basis);
    out
}

// Checks 3 and 4: the number of elements, the elements, and then the shift.
fn check_bounds(f: Field, basis: &[u16], shift: u16) -> Result<(), Refusal>
    requires { Sized f }
    ensures { Answers (basis_checks f.modulus basis.now shift) (answer_of result) }
{
    if basis.len() < 3 || MAX < basis.len() {
        return Err(Refusal::BasisLength);
    }
    if !field::modulus::all_symbols(f, basis) || !field::modulus::is_symbol(f, shift) {
        return Err(Refusal::SettingSymbol);
    }
    Ok(())
}

// The setting of a basis and a shift that passed checks 1 to 4: check 5.
fn settle(f: Field, basis: &[u16], shift: u16) -> Result<Setting, Refusal>
    requires { Sized f × Irreducible f.modulus × (length basis.now ≤ max_dim) × Below (2 ^ degree f.modulus) basis.now }
    ensures { Made f.modulus basis.now shift result }
{
    let Some(t) = tabulate(f, basis) else {
        return Err(Refusal::BasisDependent);
    };
    let images = t.images;
    let steps = t.steps;
    let inverses = t.inverses;
    let k = basis.len();
    Ok(Setting {
        field: f,
        space: Space { k, images },
        basis: padded(basis),
        shift,
        steps,
        inverses,
    })
}

// The setting of a basis and a shift in a field whose modulus passed checks 1 and 2: checks 3 to 5.
//
// Ruled out: 5 for a dependent basis with an element too many, since check 3 comes first; the
// setting of a basis with an element of another field, since check 4 is by the field's own degree.
pub fn check_basis(f: Field, basis: &[u16], shift: u16) -> Result<Setting, Refusal>
    requires { Sized f × Irreducible f.modulus }
    ensures { SettledBy (space_checks f.modulus basis.now shift) f.modulus basis.now shift result }
{
    check_bounds(f, basis, shift)?;
    settle(f, basis, shift)
}

// A setting by its modulus, its basis and its shift: checks 1 to 5, then the setting.
//
// Ruled out: a dependent basis that is answered with a setting, since no setting has a step 0; a
// number other than the first check's that refuses, as 2 for a modulus that check 1 refuses, or 5
// for a dependent basis with a shift that is no symbol.
pub fn check(modulus: u32, basis: &[u16], shift: u16) -> Result<Setting, Refusal>
    ensures { Settled modulus basis.now shift result }
{
    let f = field::modulus::check(modulus)?;
    check_basis(f, basis, shift)
}
