// What a slot holds, with its key: nothing, a key and the number of the request that entered it, or a place.
// Kept: a slot's three cases, with the key beside its number; none of them is a missing value.
#[derive(Clone, Copy, PartialEq, Eq, Debug)]
pub enum Met<K> {
    Nothing,
    Key(u16, K),
    Place(u16),
}
