// What every layer shares: places, names, words and tokens, the limits, and the outside.
#![tactic(auto)]

pub mod failures;
mod form;
mod items;
pub mod limits;
mod mark;
mod name;
mod outside;
mod place;
mod scalar;
mod site;
mod token;
mod word;

pub use form::Form;
pub use items::Items;
pub use mark::Mark;
pub use name::Name;
pub use outside::files::{Failed, Files};
pub use outside::mem_files::MemFiles;
pub use outside::mem_sink::MemSink;
pub use outside::reading::{ReadErr, read_all};
pub use outside::real_files::RealFiles;
pub use outside::sink::Sink;
pub use outside::std_sink::StdSink;
pub use outside::writing::write_all;
pub use place::{Place, place_of};
pub use scalar::Scalar;
pub use site::Site;
pub use token::Token;
pub use word::Word;
