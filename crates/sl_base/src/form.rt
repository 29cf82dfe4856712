/// The form of a container, as its class of ISO/IEC 14882:2017, [containers].
#[derive(Clone, Copy)]
pub enum Form {
    Vector,
    Deque,
    List,
    Set,
    Map,
    HashSet,
    HashMap,
    MultiSet,
    MultiMap,
}
