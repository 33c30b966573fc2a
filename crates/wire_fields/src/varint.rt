// Numbers in groups of seven bits.
ghost use Rattle.std.specs.Prelude.{◌≡◌, ◌++◌, ◌≤◌, OnOk, OnErr, length};
ghost use Rattle.wire_fields.specs.Varint.{IsVarintAt, varint};
ghost use Rattle.wire_fields.specs.Grammar.{SpellsVarint, VarintGrammar};

use plain_values::NoMemory;

// Nine bytes hold 63 bits, and a number has 64.
const TENTH_BYTE_MAX: u8 = 1;

/// The front of some bytes, read as a number.
#[derive(Clone, Copy, Debug, PartialEq)]
pub enum Varint {
    /// The number, and the number of its bytes.
    Whole { value: u64, used: usize },
    /// The bytes end inside the number.
    Cut,
    /// The number has more than ten bytes or more than 64 bits.
    Bad,
}

/// Returns the number at the front of the bytes.
#[tactic(auto, using(crate::proofs::Grammar::spelled_so))]
pub fn read_varint(bytes: &[u8]) -> Varint
    ensures read { IsVarintAt bytes.now result }
    ensures spelled { SpellsVarint bytes.now result }
{
    add_groups(bytes)
}

// Adds up the groups of seven bits, the lowest first.
fn add_groups(bytes: &[u8]) -> Varint
    ensures { IsVarintAt bytes.now result }
{
    let mut value = 0u64;
    for i in 0..9 {
        let Some(&byte) = bytes.get(i) else {
            return Varint::Cut;
        };
        value += u64::from(byte & 0x7f) << (7 * i);
        if byte < 0x80 {
            return Varint::Whole { value, used: i + 1 };
        }
    }
    match bytes.get(9) {
        None => Varint::Cut,
        Some(&byte) if byte <= TENTH_BYTE_MAX => Varint::Whole {
            value: value + (u64::from(byte) << 63),
            used: 10,
        },
        Some(_) => Varint::Bad,
    }
}

/// Appends the number in the fewest bytes.
///
/// # Errors
///
/// Returns `NoMemory` if memory runs out. The vector is then as it was.
pub fn push_varint(value: u64, out: &mut Vec<u8>) -> Result<(), NoMemory>
    ensures ok { OnOk result (out.new.items ≡ out.old.items ++ varint value) }
    ensures err { OnErr result (out.new.items ≡ out.old.items) }
{
    let mut groups = [0u8; 10];
    let mut rest = value;
    let mut last = 0;
    while rest >= 0x80 {
        groups[last] = (rest % 0x80) as u8 + 0x80;
        rest /= 0x80;
        last += 1;
    }
    groups[last] = rest as u8;
    out.extend_from_slice(&groups[..=last])?;
    Ok(())
}

/// Returns the number of bytes that `push_varint` appends for the number.
pub fn varint_length(value: u64) -> u64
    ensures exact { result ≡ length (varint value) }
    ensures short { result ≤ 10 }
{
    let mut rest = value;
    let mut length = 1;
    while rest > 0x7f {
        rest /= 0x80;
        length += 1;
    }
    length
}

/// States which bytes spell which number, which are cut and which are bad. The one function of the bytes that contracts
/// use agrees with the grammar of the encoding page.
pub fn varint_grammar()
    ensures { VarintGrammar }
{}
