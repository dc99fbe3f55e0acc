//! The law that a text that is cut into tables is the document of those tables.
ghost use Rattle.std.specs.Prelude.{◌≡◌, ℕ, List, None, Some};
ghost use Rattle.toml_parser.specs.Lexical.{skip_blank};
ghost use Rattle.toml.specs.Parse.{parse_document, skip_bom};
ghost use Rattle.phh_reading.specs.Tables.{Entry, IsCut, AreApart, document_from};
ghost use Rattle.phh_reading.specs.Worked.{header_in_text, lines_before_header, one_entry, two_documents, two_entries, two_tables};

/// If the text after the blank lines at its front is cut into tables with different keys, the
/// document is those tables under their keys. The function does nothing: its contract is a law.
pub fn law_of_tables()
    ensures { (text : List ℕ) (entries : List Entry)
        → IsCut (skip_blank (skip_bom text)) entries → AreApart entries
        → parse_document text ≡ Some (document_from entries) }
{}

/// Worked documents: two tables, which the document has in the order of their keys as texts; and a
/// text on several lines that holds a header, before which the lines are no document of their own.
/// The function does nothing: its contract is what the definitions compute.
pub fn law_of_worked_documents()
    ensures tables { parse_document two_tables ≡ Some two_documents }
    ensures entries { document_from two_entries ≡ two_documents }
    ensures held { parse_document header_in_text ≡ Some (document_from one_entry) }
    ensures no_lines { parse_document lines_before_header ≡ None }
{}
