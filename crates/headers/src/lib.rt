// What a packet's header is made of, by its type's row of the table: the table, the rule on flags,
// where fields, optional headers and data lie, and how fields and options are read and written. The
// reader and the writer of `packet` put it together.
//
// `Sound row`, which many of these ask, is no ghost field of `TypeRow`: `flags::fit`, `arrays::whole` and others are stated
// of every row, and so are the laws of a row's array; and a field's fact could not speak of the row, only of its twelve parts.
#![tactic(auto)]

pub mod arrays;
pub mod flags;
pub mod layout;
pub mod lengths;
pub mod options;
pub mod sections;
pub mod table;
