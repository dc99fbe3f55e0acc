//! Reads the table at the front of a text.
ghost use Rattle.std.specs.Prelude.{◌≡◌, ℕ, suc, ◌-◌, ◌<◌, ◌≤◌, ◌∷◌, ◌++◌, false, true, List, Some, None, IfOk, IfSome, IsTrue, length, slice_index};
ghost use Rattle.std.specs.List.{list_all, prefix_len};
ghost use Rattle.std.specs.Char.{is_ascii_digit, is_digit};
ghost use Rattle.toml_parser.specs.Lexical as lexical;
ghost use Rattle.toml.specs.Data.{Members};
ghost use Rattle.toml.specs.Parse.{parse_document};
ghost use Rattle.toml.specs.Parse as parse;
ghost use Rattle.toml.specs.View.{table_view};
ghost use Rattle.phh_reading.specs.declared.table.TheConstants.{LONGEST_TABLE};
ghost use Rattle.phh_reading.specs.Tables.{IsFirstTable, IsHeader};
ghost use Rattle.phh_reading.specs.Tables as tables;

use crate::parsing::document;
use crate::sections::contains_section;
use card_set::Memory;
use std::alloc::Global;
use toml::Table;
use toml_parser::text::{byte_at, first, skip, skip_blank, starts_newline};

/// The most bytes of the lines of a table that is parsed alone. So few bytes cannot take long to
/// parse: a text that is slow to parse is not parsed twice.
pub const LONGEST_TABLE: usize = 65_536;

/// The text without a byte order mark and without the blank lines and comments at its front.
pub fn first_line(text: &str) -> &str
    ensures { result.now ≡ lexical.skip_blank (parse.skip_bom text.now) }
{
    skip_blank(skip_bom(text), true)
}

// The text without a byte order mark.
fn skip_bom(text: &str) -> &str
    ensures { result.now ≡ parse.skip_bom text.now }
{
    if first(text) == 0xEF && byte_at(text, 1) == 0xBB && byte_at(text, 2) == 0xBF {
        &text[3..]
    } else {
        text
    }
}

/// The table under the header at the front of a text: the number in the header, the table, and the
/// text from the next line on that begins with a bracket. Nothing if and only if there is no such
/// table.
pub fn first_table(alloc: Global, text: &str) -> Result<Option<(&str, Table, &str)>, Memory>
    ensures found { IfOk result (λ found. IfSome found (λ parts. (lines : List ℕ)
        × IsFirstTable text.now parts.0.now lines parts.2.now (table_view parts.1))) }
    ensures none { IfOk result (λ found. found ≡ None → (number lines next : List ℕ)
        → (members : Members) → IsFirstTable text.now number lines next members → ⊥) }
{
    let Some((number, rest)) = header(text) else {
        return Ok(None);
    };
    let (lines, next) = rest.split_at(lines_len(rest));
    match plain_table(alloc, lines)? {
        Some(table) => Ok(Some((number, table, next))),
        None => Ok(None),
    }
}

// The number of the header at the front, and the text after the header, which begins a new line.
fn header(text: &str) -> Option<(&str, &str)>
    ensures text { IfSome result (λ parts.
        text.now ≡ 91 ∷ (parts.0.now ++ 93 ∷ parts.1.now)) }
    ensures some { IfSome result (λ parts. 0 < length parts.0.now) }
    ensures digits { IfSome result (λ parts.
        list_all (λ sign. is_digit sign 10) parts.0.now ≡ true) }
    ensures line { IfSome result (λ parts. lexical.starts_newline parts.1.now ≡ true) }
    ensures none { result ≡ None → (number rest : List ℕ)
        → IsHeader text.now number rest → ⊥ }
{
    if first(text) != b'[' {
        return None;
    }
    let after = skip(text, 1);
    let (number, rest) = after.split_at(digits_len(after));
    if number.is_empty() || first(rest) != b']' {
        return None;
    }
    let lines = skip(rest, 1);
    if starts_newline(lines) {
        Some((number, lines))
    } else {
        None
    }
}

// How many digits are at the front.
fn digits_len(text: &str) -> usize
    ensures { result ≡ prefix_len is_ascii_digit text.now }
{
    let bytes = text.as_bytes();
    bytes
        .iter()
        .take_while(|byte| byte.is_ascii_digit())
        .count()
}

// The length of the lines up to the next one that begins with a bracket, or of the whole text.
fn lines_len(text: &str) -> usize
    ensures within { result ≤ length text.now }
    ensures bracket { result < length text.now → slice_index text.now result ≡ 91 }
    ensures line { result < length text.now
        → (0 < result) × (slice_index text.now (result - 1) ≡ 10) }
    ensures first { (k : ℕ) → suc k < result → slice_index text.now (suc k) ≡ 91
        → slice_index text.now k ≡ 10 → ⊥ }
{
    let bytes = text.as_bytes();
    for at in 1..bytes.len() {
        if bytes[at] == b'[' && bytes[at - 1] == b'\n' {
            return at;
        }
    }
    bytes.len()
}

// The document of the lines, if they are one, have no tables, and are few enough.
fn plain_table(alloc: Global, lines: &str) -> Result<Option<Table>, Memory>
    ensures read { IfOk result (λ found. IfSome found (λ table.
        parse_document lines.now ≡ Some (table_view table))) }
    ensures plain { IfOk result (λ found. IfSome found (λ table.
        tables.has_section (table_view table) ≡ false)) }
    ensures few { IfOk result (λ found. IfSome found (λ table. length lines.now ≤ LONGEST_TABLE)) }
    ensures none { IfOk result (λ found. found ≡ None → length lines.now ≤ LONGEST_TABLE
        → (members : Members) → parse_document lines.now ≡ Some members
        → tables.has_section members ≡ false → ⊥) }
{
    if lines.len() > LONGEST_TABLE {
        return Ok(None);
    }
    let Some(table) = document(alloc, lines)? else {
        return Ok(None);
    };
    if contains_section(&table) {
        Ok(None)
    } else {
        Ok(Some(table))
    }
}
