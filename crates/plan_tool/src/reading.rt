//! A line of the input.
ghost use Rattle.std.specs.Prelude.{◌≡◌, ◌⊎◌, ◌≤◌, ◌<◌, ◌^◌, Ok, Err, IfOk, OnOk, option_map, length};
ghost use Rattle.std.specs.List.{list_any};
ghost use Rattle.std.specs.Str.{bytes_eq};
ghost use Rattle.script_lang.specs.declared.LineFault.TheVariants.{Memory};
ghost use Rattle.script_lang.specs.Words.{behind_word, field, ends_with};
ghost use Rattle.plan_tool.specs.Options.{node_name};
ghost use Rattle.plan_tool.specs.Rows.{bytes_from, stands_before, row_fields, row_of, IsRow};

use crate::row::Row;
use plan_json::Text;
use script_lang::LineFault;
use script_lang::names::is_node;
use script_lang::words::Words;
use std::alloc::Global;

/// The most rows of an input.
const MOST_ROWS: usize = 64;

/// The most bytes of a volume.
const MOST_BYTES: u64 = 1 << 54;

/// A word as a text, where it is the name of a node.
fn node_word(word: &[u8]) -> Option<&str>
    ensures { option_map (λ text. text.now) result ≡ node_name word.now }
{
    match str::from_utf8(word) {
        Ok(text) => { if is_node(text) { Some(text) } else { None } }
        Err(_) => None,
    }
}

/// The next word, which is to be a UUID.
fn uuid(alloc: Global, words: &mut Words) -> Result<Text, LineFault>
    ensures value { (result ≡ Err Memory) ⊎ (result ≡ field node_name words.old) }
    ensures behind { OnOk result (words.new ≡ behind_word words.old) }
{
    let column = words.column();
    let Some(word) = words.next() else {
        return Err(LineFault::Bad { column });
    };
    let Some(text) = node_word(word) else {
        return Err(LineFault::Bad { column });
    };
    match Text::from_text(alloc, text) {
        Ok(uuid) => Ok(uuid),
        Err(_) => Err(LineFault::Memory),
    }
}

/// The next word, which is to be a number of bytes.
fn bytes_from(low: u64, words: &mut Words) -> Result<u64, LineFault>
    requires { low ≤ 1 }
    ensures value { result ≡ field (bytes_from low) words.old }
    ensures range { IfOk result (λ n. (low ≤ n) × (n ≤ 2 ^ 54)) }
    ensures behind { OnOk result (words.new ≡ behind_word words.old) }
{
    let column = words.column();
    let number = words.number()?;
    if low <= number && number <= MOST_BYTES {
        Ok(number)
    } else {
        Err(LineFault::Bad { column })
    }
}

/// The row, where no word is left.
fn end_with(words: &mut Words, row: Row) -> Result<Row, LineFault>
    ensures row { result ≡ ends_with words.old row }
    ensures same { IfOk result (λ r. r ≡ row) }
{
    let column = words.column();
    match words.next() {
        Some(_) => Err(LineFault::Bad { column }),
        None => Ok(row),
    }
}

/// The words of a row.
fn row_fields(alloc: Global, words: &mut Words) -> Result<Row, LineFault>
    ensures row { (result ≡ Err Memory) ⊎ (result ≡ row_fields words.old) }
    ensures limits { IfOk result IsRow }
{
    let uuid = uuid(alloc, words)?;
    let capacity = bytes_from(1, words)?;
    let used = bytes_from(0, words)?;
    end_with(
        words,
        Row {
            uuid,
            capacity,
            used,
        },
    )
}

/// Whether a word is the UUID of one of the rows.
fn names_one(rows: &[Row], word: &[u8]) -> bool
    ensures { result ≡ list_any (λ row. bytes_eq word.now row.uuid) rows.now }
{
    rows.iter().any(|row| word == row.uuid.as_str().as_bytes())
}

/// Whether a line begins with the UUID of one of the rows.
fn stands_before(rows: &[Row], text: &[u8]) -> bool
    ensures { result ≡ stands_before rows.now text.now }
{
    match Words::new(text).next() {
        Some(word) => names_one(rows, word),
        None => unreachable!(),
    }
}

/// The row that a line is, behind others.
#[tactic(auto, unfolding(crate::specs::Rows::row_of))]
pub fn read_row(alloc: Global, rows: &[Row], text: &[u8]) -> Result<Row, LineFault>
    ensures row { (result ≡ Err Memory) ⊎ (result ≡ row_of rows.now text.now) }
    ensures limits { IfOk result IsRow }
    ensures room { OnOk result (length rows.now < 64) }
{
    if rows.len() >= MOST_ROWS || stands_before(rows, text) {
        return Err(LineFault::Bad { column: 1 });
    }
    row_fields(alloc, &mut Words::new(text))
}
