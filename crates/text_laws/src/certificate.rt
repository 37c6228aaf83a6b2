//! The laws that what is printed of a certificate is read again as that certificate.

ghost use Rattle.text_laws.specs.CertLaws.{UniverseIsSpelled, RowIsReadAgain, KnownLineIsReadAgain, OrderLineIsReadAgain, CertificateIsReadAgain};

/// Every universe that was read has the names and versions that the other laws ask for.
pub fn universe_is_spelled()
    ensures { UniverseIsSpelled }
{}

/// The list that is printed of a row is read again as that row.
pub fn row_is_read_again()
    ensures { RowIsReadAgain }
{}

/// The line that is printed of a row is read again as that row.
pub fn known_line_is_read_again()
    ensures { KnownLineIsReadAgain }
{}

/// The line that is printed of an item of the order is read again as that item.
pub fn order_line_is_read_again()
    ensures { OrderLineIsReadAgain }
{}

/// The text that is printed of a certificate is read again as that certificate, over each universe
/// and plan that were read, where the text is within its limit.
pub fn certificate_is_read_again()
    ensures { CertificateIsReadAgain }
{}
