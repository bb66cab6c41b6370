// Hashes of texts and values.
ghost use Rattle.std.specs.Prelude.{◌≡◌};
ghost use Rattle.pj_value.specs.declared.values.Value.{Value as AnyValue};
ghost use Rattle.pj_hash.specs.Hashes.{folded_product, next_hash, with_bytes, with_value};

use pj_value::Value;

/// A number that equal texts have in common, and that differing ones seldom have.
pub fn text_hash(bytes: &[u8]) -> u64
    ensures { result ≡ with_bytes 0 bytes.now }
{
    with_bytes(0, bytes)
}

/// The hash with that of a value more.
pub fn with_value(hash: u64, value: &Value) -> u64
    ensures { result ≡ with_value hash value.now }
{
    match value {
        Value::Int(number) => next_hash(hash, number.cast_unsigned()),
        Value::Text(text) => with_text(hash, text.as_slice()),
    }
}

// The length goes before the bytes, so that texts beside each other are not one text.
fn with_text(hash: u64, bytes: &[u8]) -> u64
    ensures { result ≡ with_value hash (AnyValue.Text bytes.now) }
{
    with_bytes(next_hash(hash, bytes.len() as u64), bytes)
}

fn with_bytes(hash: u64, bytes: &[u8]) -> u64
    ensures { result ≡ with_bytes hash bytes.now }
{
    let mut hash = hash;
    for byte in bytes {
        hash = next_hash(hash, u64::from(*byte));
    }
    hash
}

// Mixes the number in. Each step multiplies to 128 bits and joins the halves, so that to choose a number for a given hash is to
// invert that product, and not to solve a line of arithmetic, as it is of a multiplication and an addition.
fn next_hash(hash: u64, number: u64) -> u64
    ensures { result ≡ next_hash hash number }
{
    folded_product(hash.wrapping_add(number), 0x9e37_79b9_7f4a_7c15).wrapping_add(hash.wrapping_mul(
        0xd6e8_feb8_6659_fd93,
    ))
}

fn folded_product(a: u64, b: u64) -> u64
    ensures { result ≡ folded_product a b }
{
    let product = a as u128 * b as u128;
    (product & 0xFFFF_FFFF_FFFF_FFFF) as u64 ^ (product >> 64) as u64
}
