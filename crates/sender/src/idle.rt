use frames::Settings;
use std::marker::PhantomData;

mod methods;

// A sender with no frame open. It is moved, so that a frame is opened once.
#[derive(Drop)]
pub struct Idle<L, K> {
    pub(crate) settings: Settings,
    pub(crate) line: L,
    pub(crate) kind: PhantomData<K>,
}
