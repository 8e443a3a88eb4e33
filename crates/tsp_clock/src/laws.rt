//! Theorems about the shown value and the target. Nothing here runs.
ghost use Rattle.std.specs.Prelude.{◌≡◌, ◌≢◌, ℕ, ◌+◌, ◌*◌, ◌≤◌, ℤ, ◌+ℤ◌, ◌≤ℤ◌, true, false, nat_abs};
ghost use Rattle.tsp_base.specs.declared.constants.TheConstants.{SLEW};
ghost use Rattle.tsp_rules.specs.ClockRows.{is_step};
ghost use Rattle.tsp_clock.specs.Clocks.{ClockValue, target_of, shown_of, adjusted};

/// Between two corrections the shown value never falls. It is the target once all was slewed: after `SLEW`
/// ticks for each microsecond.
pub fn shown_follows_target()
    ensures rises { (v : ClockValue) (x y : ℕ) → v.at ≤ x → x ≤ y → shown_of v x ≤ℤ shown_of v y }
    ensures meets { (v : ClockValue) (x : ℕ) → v.at + SLEW * nat_abs v.rest ≤ x
        → shown_of v x ≡ target_of v x }
{}

/// A correction moves the target by its amount at once. At that tick the shown value is unchanged, or steps
/// to the target.
pub fn corrections_keep_or_step()
    ensures moves { (v : ClockValue) (x y : ℕ) (amount : ℤ)
        → target_of (adjusted v x amount) y ≡ target_of v y +ℤ amount }
    ensures stays { (v : ClockValue) (x : ℕ) (amount : ℤ) → is_step amount ≡ false
        → shown_of (adjusted v x amount) x ≡ shown_of v x }
    ensures steps { (v : ClockValue) (x : ℕ) (amount : ℤ) → is_step amount ≡ true
        → shown_of (adjusted v x amount) x ≡ target_of (adjusted v x amount) x }
{}
