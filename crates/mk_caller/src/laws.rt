//! What calls leave: facts alone, with no code.
ghost use Rattle.mk_caller.specs.Called.{CallsLeaveOtherRegisters};

/// A call leaves the registers that it doesn't set.
pub fn calls_leave_other_registers()
    ensures { CallsLeaveOtherRegisters }
{}
