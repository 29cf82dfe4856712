//! What all that is held becomes when containers change.
ghost use Rattle.std.specs.Prelude.{◌≡◌, map};
ghost use Rattle.sl_slots.specs.Fates.{IsReady, pointer_after, value_after};
ghost use Rattle.sl_slots.specs.Stored.{Moved};

use crate::motion::{Motion, pointer_moved, value_moved};
use crate::slot::{Pointer, Value};
use crate::store::Store;

// What variables hold after a change.
fn move_pointers(by: &Motion, pointers: &mut [Pointer])
    requires { IsReady by.now }
    ensures { pointers.new ≡ map (pointer_after by.now) pointers.old }
{
    for pointer in pointers.iter_mut() {
        *pointer = pointer_moved(by, *pointer);
    }
}

// Values after a change.
fn move_values(by: &Motion, values: &mut [Value])
    requires { IsReady by.now }
    ensures { values.new ≡ map (value_after by.now) values.old }
{
    for value in values.iter_mut() {
        *value = value_moved(by, *value);
    }
}

// The variables of a store after a change.
fn move_variables(by: &Motion, pointers: &mut Vec<Pointer>)
    requires { IsReady by.now }
    ensures { pointers.new.items ≡ map (pointer_after by.now) pointers.old.items }
{
    move_pointers(by, pointers.as_mut_slice());
}

// The operands of a store after a change.
fn move_operands(by: &Motion, values: &mut Vec<Value>)
    requires { IsReady by.now }
    ensures { values.new.items ≡ map (value_after by.now) values.old.items }
{
    move_values(by, values.as_mut_slice());
}

/// All that is held takes its fate; the containers are as they were.
pub fn move_all(by: &Motion, store: &mut Store)
    requires { IsReady by.now }
    ensures moved { Moved by.now store.old store.new }
    ensures containers { store.new.containers ≡ store.old.containers }
{
    move_variables(by, &mut store.pointers);
    move_operands(by, &mut store.operands);
}
