ghost use Rattle.std.specs.Prelude.{◌≡◌, IfOk};

use file_calls::Call;
use std::alloc::{AllocError, Global};
use std::marker::Model;

/// A call that a host asks. It is kept apart, so that no event is as wide as a call.
#[derive(Debug, Drop)]
pub struct AskedCall {
    call: Box<Call>,
}

impl Model for AskedCall {
    ghost use Rattle.file_calls.specs.declared.call.Call.{Call};

    ghost Value = { Call };

    ghost view = { λ a. a.call.value };
}

impl AskedCall {
    pub fn new(alloc: Global, call: Call) -> Result<AskedCall, AllocError>
        ensures { IfOk result (λ asked. asked ≡ call) }
    {
        let call = Box::new(alloc, call)?;
        Ok(AskedCall { call })
    }

    pub fn call(&self) -> &Call
        ensures { result.now ≡ self.now }
    {
        &self.call
    }
}
