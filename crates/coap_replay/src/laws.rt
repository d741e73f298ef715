//! Laws of the definitions: public functions that do nothing, whose contracts are the laws.
ghost use Rattle.std.specs.Prelude.{◌≡◌, ℕ, Bool, Result, Ok, Err, false, true};
ghost use Rattle.coap_replay.specs.Replays.{FailsBy, is_read_fault, is_write_fault};

use crate::error::ReplayError;

/// The result of a replay says whether its reader or its writer failed in it: neither did if the
/// replay succeeded, and otherwise only the one that the error names.
pub fn results_say_what_failed()
    ensures done { (count : ℕ) (read written : Bool)
        → FailsBy (is_read_fault {A = ℕ} (Ok count)) false read
        → FailsBy (is_write_fault {A = ℕ} (Ok count)) false written
        → (read ≡ false) × (written ≡ false) }
    ensures reader { (result : Result ℕ ReplayError)
        → FailsBy (is_read_fault result) false true → result ≡ Err ReplayError.Read }
    ensures writer { (result : Result ℕ ReplayError)
        → FailsBy (is_write_fault result) false true → result ≡ Err ReplayError.Write }
{}
