//! The lock round a sum, in one thread and in several.
ghost use Rattle.std.specs.Prelude.{◌≡◌, All, vec_len};

use std::alloc::Global;
use std::sync::atomic::{AtomicU64, Ordering};
use std::sync::{Arc, Wait};
use std::test::Fail;
use std::thread::{Threads, join, map_vec, yield_now};
use turn_lock::sum::{Addend, Sum};
use turn_lock::{Answered, Kept, Stepped, TurnPass, Turns};

/// The places of so many calls with 1 each, in their order. A place that is not its call's answer is given as u64::MAX.
fn places_of<R: Wait>(rt: &R, lock: &Turns<Sum>, mut pass: TurnPass<Sum>) -> [u64; 500]
    requires { pass.lock ≡ lock.now.id }
{
    let mut places = [0; 500];
    for place in &mut places {
        let party = pass.number();
        let told = lock.ask(rt, &mut pass, &Addend { party, amount: 1 }, 0);
        *place = if told.answer == told.place {
            told.place
        } else {
            u64::MAX
        };
    }
    places
}

#[test]
fn eight_threads_have_places_of_their_own(rt: HostRuntime) -> Result<(), Fail> {
    let made = Turns::make(rt.alloc(), Sum { total: 0 }, 8);
    assert!(rt; made.is_ok());
    let Ok((lock, passes)) = made else {
        return Ok(());
    };
    let shared = &lock;
    let asking = |pass: TurnPass<Sum>| -> [u64; 500]
        requires { pass.lock ≡ shared.now.id }
    { places_of(&rt, shared, pass) };
    let lists = map_vec(&rt, passes, &asking)?;
    let mut taken = [false; 4000];
    for places in &lists {
        assert!(rt; places.is_sorted());
        for &place in places {
            let at = place as usize;
            assert!(rt; at < 4000 && !taken[at]);
            taken[at] = true;
        }
    }
    Ok(())
}

/// So often a party looks for the other, and so many turns it stands still once that asks.
const PATIENCE: u32 = 1_000_000;

const STILL: u32 = 20_000;

/// What two parties know of each other: whether party 0 stands in its turn, whether party 1 asks, and whether that was
/// answered.
#[derive(Drop)]
struct Words {
    stands: AtomicU64,
    asks: AtomicU64,
    answered: AtomicU64,
}

/// Waits until the word is set, and says whether it was.
fn is_set(word: &AtomicU64) -> bool {
    for _turn in 0..PATIENCE {
        if word.load(Ordering::SeqCst) != 0 {
            return true;
        }
        yield_now();
    }
    false
}

/// What a step answers: how many there were before, and of party 0's whether party 1 asked meanwhile and had no answer.
#[derive(Clone, Copy, Debug, PartialEq, Eq)]
struct Found {
    before: u64,
    held_back: bool,
}

/// A value in whose step party 0 stands still. It may not be dropped. Its party's number is the request.
struct Halting {
    words: Arc<Words, Global>,
    steps: u64,
}

impl Halting {
    /// How many steps there were.
    fn open(self) -> u64 {
        let Halting {
            words: _words,
            steps,
        } = self;
        steps
    }

    /// Stands still until party 1 asks, and then as long as is long for a call. Says whether party 1 asked and had no
    /// answer.
    fn stands_still(&self) -> bool {
        self.words.stands.store(1, Ordering::SeqCst);
        let asked = is_set(&self.words.asks);
        for _turn in 0..STILL {
            yield_now();
        }
        asked && self.words.answered.load(Ordering::SeqCst) == 0
    }
}

impl Kept for Halting {
    type Request = u32;

    type Answer = Found;

    type Law = ();

    ghost law = { λ _. tt };

    ghost fits = { λ _ _. Unit {0} };

    ghost party = { λ q. q };

    ghost run = { λ _ _. Unit {0} };

    ghost used = { λ _ _ m. m };

    ghost stands = { λ _ _. Unit {0} };

    fn step<R: Wait>(&mut self, _rt: &R, request: &u32, moment: u64) -> Stepped<Found> {
        let answer = Found {
            held_back: *request == 0 && self.stands_still(),
            before: self.steps,
        };
        self.steps = self.steps.wrapping_add(1);
        Stepped {
            answer,
            used: moment,
        }
    }
}

/// Asks once.
fn ask_halting<R: Wait>(
    rt: &R,
    lock: &Turns<Halting>,
    mut pass: TurnPass<Halting>,
) -> (TurnPass<Halting>, Found, u64)
    requires { pass.lock ≡ lock.now.id }
    ensures { result.0.lock ≡ pass.lock }
{
    let party = pass.number();
    let Answered { answer, place, .. } = lock.ask(rt, &mut pass, &party, 0);
    (pass, answer, place)
}

/// The same, once party 0 stands in its turn.
fn ask_behind<R: Wait>(
    rt: &R,
    lock: &Turns<Halting>,
    pass: TurnPass<Halting>,
    words: Arc<Words, Global>,
) -> (TurnPass<Halting>, Found, u64)
    requires { pass.lock ≡ lock.now.id }
    ensures { result.0.lock ≡ pass.lock }
{
    let _stands = is_set(&words.stands);
    words.asks.store(1, Ordering::SeqCst);
    let told = ask_halting(rt, lock, pass);
    words.answered.store(1, Ordering::SeqCst);
    told
}

/// Party 0 asks and stands still in its turn, and party 1 asks meanwhile, each with its pass in a thread of its own. It
/// gives what each found, with its place, and the numbers of steps and of calls.
fn halt_and_ask<R: Threads + Wait + Sync>(
    rt: &R,
    lock: Turns<Halting>,
    mut passes: Vec<TurnPass<Halting>>,
    words: Arc<Words, Global>,
) -> ([(Found, u64); 2], (u64, u64))
    requires parties { lock.id.parties ≡ 2 }
    requires count { vec_len passes ≡ 2 }
    requires lock { All (λ p. p.lock ≡ lock.id) passes.items }
{
    let second = passes.pop().unwrap();
    let first = passes.pop().unwrap();
    let shared = &lock;
    let (first, second) = join(
        rt,
        move || ask_halting(rt, shared, first),
        move || ask_behind(rt, shared, second, words),
    );
    let told = [(first.1, first.2), (second.1, second.2)];
    passes.push_reserved(first.0);
    passes.push_reserved(second.0);
    let (halting, calls) = lock.close(passes);
    (told, (halting.open(), calls))
}

#[test]
fn who_stops_in_its_turn_holds_the_others_back(rt: HostRuntime) -> Result<(), Fail> {
    let words = Words {
        stands: AtomicU64::new(0),
        asks: AtomicU64::new(0),
        answered: AtomicU64::new(0),
    };
    let words = Arc::new(rt.alloc(), words)?;
    let halting = Halting {
        words: words.clone()?,
        steps: 0,
    };
    let (lock, passes) = match Turns::make(rt.alloc(), halting, 2) {
        Ok(made) => made,
        Err((_, halting)) => {
            halting.open();
            panic!(rt; "no memory")
        }
    };
    let (told, numbers) = halt_and_ask(&rt, lock, passes, words);
    let stopped = Found {
        before: 0,
        held_back: true,
    };
    let behind = Found {
        before: 1,
        held_back: false,
    };
    assert_eq!(rt; told, [(stopped, 0), (behind, 1)]);
    assert_eq!(rt; numbers, (2, 2));
    Ok(())
}
