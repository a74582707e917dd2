//! Why every block is taken once: laws of the clauses of `Seats`. They are calls that do nothing.

ghost use Rattle.std.specs.Prelude.{◌≡◌, ℕ, ◌<◌, ◌%◌, ◌==◌, if◌then◌else◌};
ghost use Rattle.worker_seats.specs.Claims.{times};
ghost use Rattle.worker_seats.specs.Lanes.{pushed_to};
ghost use Rattle.worker_seats.specs.Sittings.{Sitting, IsFreshSitting, IsShared, times_taken};

/// Each block stands once in what is pushed to the deque of its number modulo the workers, and in no
/// other.
pub fn law_each_block_has_one_deque()
    ensures { (workers blocks deque block : ℕ) → block < blocks
        → times block (pushed_to workers blocks deque)
        ≡ (if block % workers == deque then 1 else 0) }
{}

/// So each block is taken once, by one worker from one deque.
pub fn law_each_block_is_taken_once()
    ensures { (workers blocks block : ℕ) (old new : Sitting) → 0 < workers → block < blocks
        → IsFreshSitting workers blocks old → IsShared workers blocks old new
        → times_taken workers block new ≡ 1 }
{}
