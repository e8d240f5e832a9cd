use std::marker::PhantomData;
use std::thread::Threads;

// The right of a runtime to start threads, without the runtime. It has no bytes, so that every thread may see it.
#[derive(Drop)]
pub(crate) struct Handle<R: Threads> {
    of: PhantomData<R>,
}

impl<R: Threads> Threads for Handle<R> {}

impl<R: Threads> Handle<R> {
    pub(crate) fn of(_rt: &R) -> Handle<R> {
        Handle { of: PhantomData }
    }
}
