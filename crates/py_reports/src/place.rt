//! The places of codes: in which file each stands, and its name.

use py_code::{ItemList, NameId};

/// The file of a code, and its name, in the table of names.
#[derive(Clone, Copy, Debug, PartialEq, Eq)]
pub struct Place {
    pub source_path: NameId,
    pub obj_name: NameId,
}

/// The places of codes, by the numbers of the codes.
pub type Places = ItemList<Place>;
