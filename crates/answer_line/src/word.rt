// What the words of a line stand for.
ghost use Rattle.std.specs.Prelude.{◌≡◌, ◌*◌, ◌%◌, ◌<◌, ◌≤◌, [], length, codes, ◌⊎◌, Ok, IsOk, IfOk, OnOk};
ghost use Rattle.std.specs.List.{AllPass};
ghost use Rattle.std.specs.Char.{is_ascii_digit};
ghost use Rattle.std.specs.Str.Parse.{digits_value};
ghost use Rattle.hex.specs.Hex.{decode_of};
ghost use Rattle.answer_line.specs.Word.{IsLowerCase, bytes_of, by_bytes};

use crate::reply::Fault;
use hex::decode_to_slice;

// The bytes that pairs of lower-case hexadecimal digits are, or `-` for none, in a room for them.
pub fn bytes<'a>(word: &[u8], room: &'a mut [u8]) -> Result<&'a [u8], Fault>
    ensures stands { by_bytes result ≡ bytes_of (length room.old) word.now }
    ensures dash { word.now ≡ codes "-" → IsOk result × IfOk result (λ bytes. bytes.now ≡ []) }
    ensures pairs { IfOk result (λ bytes. (word.now ≡ codes "-") ⊎ (decode_of word.now ≡ Ok bytes.now)) }
    ensures lower { OnOk result (IsLowerCase word.now) }
    ensures found { IsOk (decode_of word.now) → IsLowerCase word.now → 0 < length word.now → length word.now ≤ 2 * length room.old → IsOk result }
{
    if word == b"-".as_slice() {
        return Ok(&[]);
    }
    if word.is_empty() || word.iter().any(u8::is_ascii_uppercase) {
        return Err(Fault::BadLine);
    }
    let bytes = room.get_mut(..word.len() / 2).ok_or(Fault::BadLine)?;
    decode_to_slice(word, bytes).map_err(|_| Fault::BadLine)?;
    Ok(bytes)
}

// The number that one to five decimal digits are.
pub fn number(word: &[u8]) -> Result<usize, Fault>
    ensures value { IfOk result (λ n. n ≡ digits_value 10 word.now) }
    ensures digits { OnOk result (AllPass is_ascii_digit word.now) }
    ensures short { OnOk result (length word.now ≤ 5) }
    ensures found { AllPass is_ascii_digit word.now → 0 < length word.now → length word.now ≤ 5 → IsOk result }
{
    if word.len() > 5 || !word.iter().all(u8::is_ascii_digit) {
        return Err(Fault::BadLine);
    }
    let digits = std::str::from_utf8(word).map_err(|_| Fault::BadLine)?;
    digits.parse().map_err(|_| Fault::BadLine)
}

// The words of a table that bytes are, four bytes a word, the least first, in a room for them.
pub fn table<'a>(bytes: &[u8], room: &'a mut [u32]) -> Result<&'a [u32], Fault>
    ensures whole { IfOk result (λ table. length bytes.now ≡ 4 * length table.now) }
    ensures found { length bytes.now % 4 ≡ 0 → length bytes.now ≤ 4 * length room.old → IsOk result }
{
    let (chunks, rest) = bytes.as_chunks::<4>();
    let table = room.get_mut(..chunks.len()).ok_or(Fault::BadLine)?;
    if !rest.is_empty() {
        return Err(Fault::BadLine);
    }
    for (word, chunk) in table.iter_mut().zip(chunks) {
        *word = u32::from_le_bytes(*chunk);
    }
    Ok(table)
}
