//! What a look at a node finds, from the looks at its parts.

mod leaf;
mod library_call;
mod member;
mod member_call;
mod node;
mod operation;
mod own_call;
mod subscript;

pub use leaf::{name_look, number_look, truth_look};
pub use library_call::{inside_library_call, library_call_look};
pub use member::member_look;
pub use member_call::{inside_member_call, is_call_site, member_call_look};
pub use node::Node;
pub use operation::{binary_look, postfix_look, prefix_look};
pub use own_call::call_look;
pub use subscript::{index_look, inside_index};
