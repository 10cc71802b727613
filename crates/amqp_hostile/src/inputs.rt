//! The inputs that are changed, in hexadecimal digits. They are written out by the standard's tables.

/// A received state (Part 3, section 3.4.1).
pub(crate) const RECEIVED: &str = "005323c005025209530d";

/// A disposition of one accepted delivery (Part 2, section 2.7.6).
pub(crate) const DISPOSITION: &str = "005315c009054143404100532445";

/// An attach that has each field, up to the last null (Part 2, section 2.7.3).
pub(crate) const ATTACH: &str =
    "005312c0580ea114727573742d72656365697665722d6c696e6b2d314342500040005328c00f0ba102713140404040404040404040005329c008\
    074040404040404040404380ffffffffffffffffa30b5348415245442d535542534040";

/// An open of a container named `test` (Part 2, section 2.7.1).
pub(crate) const OPEN: &str = "005310c00701a10474657374";

/// The same that offers two capabilities.
pub(crate) const OPEN_WITH_CAPABILITIES: &str =
    "005310c01f08a10474657374404040404040e01002b300000003464f4f00000003424152";

/// A header that has each default (Part 3, section 3.2.1).
pub(crate) const HEADER: &str = "005370c00705425004404243";

/// A message without a body: a header and properties (Part 3, section 3.2).
pub(crate) const NO_BODY: &str = "0053704500537345";

/// A header, three sections of data and a footer.
pub(crate) const BATCH: &str =
    "00537045005375a009010203040506070809005375a009010203040506070809005375a009010203040506070809005378c10100";

/// Seven headers, and a byte after them.
pub(crate) const SEVEN_HEADERS: &str =
    "005370450053704500537045005370450053704500537045005370c0020141ff";

/// Six headers, and a byte that begins no section.
pub(crate) const SIX_HEADERS: &str = "005370450053704500537045005370450053704500537045ff";
