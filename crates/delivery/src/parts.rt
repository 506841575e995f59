// The word, the proof and the stored file, of a message that passed its checks. None of the three
// calls is refused then, so that their answers are dropped.
ghost use Rattle.std.specs.Prelude.{◌≡◌, false, ◌+◌, ◌*◌, ◌-◌, ◌^◌, ◌≤◌, length, take};
ghost use Rattle.field.specs.Binary.{degree};
ghost use Rattle.field.specs.Symbols.{symbols};
ghost use Rattle.poly.specs.Shift.{word_at, CodewordAt};
ghost use Rattle.proximity.specs.Dim.{S};
ghost use Rattle.codec.specs.Scratch.{scratch_for};
ghost use Rattle.prover.specs.Calls.{ProofAt};
ghost use Rattle.stored.specs.Bytes.{numbers_at};
ghost use Rattle.stored.specs.File.{Carries, file_end, small_dim, form_in, modulus_in, basis_in, shift_in, end_in};
ghost use Rattle.stored.specs.Reader.{SettingRead};
ghost use Rattle.delivery.specs.Message.{coefficients_in};
ghost use Rattle.delivery.specs.Parts.{Small, Coefficients, Passed, StoredFile};

use novel::convert::power;
use proximity::tables;
use space::Setting;
use stored::{Form, SMALL, SMALL_PROOF, bytes, forms, records, small};

fn no_numbers() -> [u16; 1 << (SMALL - 3)]
    ensures { length result ≡ 2 ^ (small_dim - 3) }
{
    [0u16; 1 << (SMALL - 3)]
}

fn no_scratch() -> [u16; codec::SCRATCH << SMALL]
    ensures { length result ≡ scratch_for small_dim }
{
    [0u16; codec::SCRATCH << SMALL]
}

// The first count two-byte numbers from index at on.
fn numbers_at(message: &[u8], at: usize, count: usize) -> [u16; 1 << (SMALL - 3)]
    requires { (count ≤ 2 ^ (small_dim - 3)) × (at + 2 * count ≤ length message.now) }
    ensures { (length result ≡ 2 ^ (small_dim - 3)) × (take count result ≡ numbers_at false message.now at count) }
{
    let mut out = no_numbers();
    bytes::numbers_at(message, at, false, &mut out[..count]);
    out
}

// The word of the coefficients, in the first 2^k places.
fn word_of(modulus: u32, basis: &[u16], shift: u16, coefficients: &[u16]) -> [u16; 1 << SMALL]
    requires { Small modulus basis.now shift × Coefficients modulus basis.now coefficients.now }
    ensures { (length result ≡ 2 ^ small_dim) × (take (2 ^ length basis.now) result ≡ word_at (symbols modulus) shift (length basis.now) basis.now coefficients.now) }
{
    let n = power(basis.len());
    let mut word = small::no_word();
    let mut scratch = no_scratch();
    let _ = codec::encode(
        modulus,
        basis,
        shift,
        coefficients,
        &mut word[..n],
        &mut scratch,
    );
    word
}

// The proof of a codeword, in the first S(k) places.
fn proof_of(modulus: u32, basis: &[u16], shift: u16, word: &[u16]) -> [u16; SMALL_PROOF]
    requires { Small modulus basis.now shift × CodewordAt (symbols modulus) shift (length basis.now) basis.now word.now }
    ensures { (length result ≡ S small_dim) × ProofAt modulus basis.now shift word.now (take (S (length basis.now)) result) }
{
    let s = tables::proof_length(basis.len());
    let mut proof = small::no_proof();
    let mut scratch = no_scratch();
    let _ = prover::prove(modulus, basis, shift, word, &mut proof[..s], &mut scratch);
    proof
}

// The stored file of the coefficients' word and its proof.
fn write_coefficients(
    form: Form,
    modulus: u32,
    basis: &[u16],
    shift: u16,
    coefficients: &[u16],
    out: &mut [u8],
)
    requires { Carries form shift × Small modulus basis.now shift × Coefficients modulus basis.now coefficients.now × (length out.old ≡ file_end form (degree modulus) (length basis.now)) }
    ensures { StoredFile form modulus basis.now shift coefficients.now out.new }
{
    let k = basis.len();
    let n = power(k);
    let s = tables::proof_length(k);
    let word = word_of(modulus, basis, shift, coefficients);
    let proof = proof_of(modulus, basis, shift, &word[..n]);
    let _ = filing::writer::write_form(form, modulus, basis, shift, &word[..n], &proof[..s], out);
}

// The stored file of a message that passed its checks, in the message's form.
pub fn write_file(message: &[u8], setting: Setting, out: &mut [u8])
    requires { Passed message.now × SettingRead message.now setting × (length out.old ≡ end_in message.now) }
    ensures { StoredFile (form_in message.now) (modulus_in message.now) (basis_in message.now) (shift_in message.now) (coefficients_in message.now) out.new }
{
    let form = forms::form_of(message);
    let modulus = setting.field.modulus;
    let shift = setting.shift;
    let k = setting.space.k;
    let n = power(k - 3);
    let at = forms::setting_size(form, k) + 6;
    let basis = records::basis_at(message, k);
    let coefficients = numbers_at(message, at, n);
    write_coefficients(form, modulus, &basis[..k], shift, &coefficients[..n], out);
}
