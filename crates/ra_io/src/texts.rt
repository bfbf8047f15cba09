ghost use Rattle.std.specs.Prelude.{◌≡◌, ℕ, ◌-◌, List, Some, None, length, take, drop, OnOk, OnErr};
ghost use Rattle.std.specs.Option.{option_map};
ghost use Rattle.ra_io.specs.Pieces.{Sets, piece_len};
ghost use Rattle.ra_io.specs.Texts.{held_in};

use ra_base::NoMemory;
use std::alloc::Global;
use std::collections::BTreeMap;

/// Texts by name.
pub type Texts = BTreeMap<String, Vec<u8>>;

/// Sets the bytes of a name.
pub fn set_text(texts: &mut Texts, alloc: Global, name: &str, bytes: &[u8]) -> Result<(), NoMemory>
    ensures set { OnOk result (Sets (held_in texts.old) (held_in texts.new) name.now bytes.now) }
    ensures unchanged { OnErr result ((other : List ℕ) →
        held_in texts.new other ≡ held_in texts.old other) }
{
    let name = String::from_str(alloc, name)?;
    let bytes = Vec::from_slice(alloc, bytes)?;
    texts.insert(name, bytes)?;
    Ok(())
}

/// The bytes of a name, if the name was set.
pub fn text_of<'t>(texts: &'t Texts, name: &str) -> Option<&'t [u8]>
    ensures { option_map (λ t. t.now) result ≡ held_in texts.now name.now }
{
    match texts.get(name) {
        Some(bytes) => Some(bytes.as_slice()),
        None => None,
    }
}

/// Copies `bytes` from place `at` on to the front of `into`, at most `most` bytes,
/// and gives their number.
pub fn copy_piece(bytes: &[u8], at: u64, most: usize, into: &mut [u8]) -> usize
    ensures number { result ≡ piece_len (length into.new) most at bytes.now }
    ensures bytes { take result into.new ≡ take result (drop at bytes.now) }
{
    if at >= bytes.len() as u64 {
        return 0;
    }
    let rest = &bytes[at as usize..];
    let number = into.len().min(most).min(rest.len());
    into[..number].copy_from_slice(&rest[..number]);
    number
}
