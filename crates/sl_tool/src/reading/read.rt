//! What a reader answers.

/// All is read; or the number of the token, from 0, at which it stops being what is read. Where the tokens end too
/// early, that is how many they are.
#[derive(Drop)]
pub enum Read<T> {
    Whole(T),
    Stops(usize),
}
