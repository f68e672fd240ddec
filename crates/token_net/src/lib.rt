//! A network of partitions that run by tokens, for every order of its events: definitions and laws alone.
//!
//! A design is cut into partitions. Each runs cycle by cycle at its own pace: it takes a token from each input
//! channel, evaluates, and gives a token on each output channel (FAME1 decoupling, as in Strober in outline). Every
//! partition runs twice: leaders run ahead until an assertion fires, and laggers run the same cycles some cycles
//! later, so that the state before the failure is still there.
//!
//! Below: nothing, as a partition's state, its cycle and a token's values are parameters. Above: the crates that run
//! such a network, on one thread or on several. Posts, which threads share, stand apart from states and tokens, so
//! that their rules and steps serve these crates too.
//!
//! `specs/Shape` says what a network is of, `specs/SideState` what one side holds and does, `specs/Posts` what leaders
//! and laggers let each other know and what a post allows, `specs/Network` the events, `specs/Holds` what is true after
//! each of them, `specs/Left` how many events may still come, `specs/End` the end, `specs/Extension` more rows and
//! lists of steps, and `specs/Laws` what `posts_law` and `network_law` promise.
#![tactic(auto)]

ghost use Rattle.token_net.specs.Shape.{Shape};
ghost use Rattle.token_net.specs.Posts.{Course};
ghost use Rattle.token_net.specs.Laws.{PostsLaws, Laws};

/// The laws of posts alone, for every run: what holds of them at the start (`begins`) is kept by each of the six steps
/// where the post allows it (`raise`, `halt`, `report`, `see_fire`, `see`, `lag_raise`) and by more rows (`extends`);
/// at the end they stand at the first failure (`end`).
pub fn posts_law()
    ensures { (n : Course) → PostsLaws n }
{}

/// The laws of every network, whatever the type `S` of a partition's state and the type `V` of a token's values:
/// whichever events come in whichever order, states, tokens and reports are those of the design's own run (`begins`,
/// `keeps`, `cut`), the network is never stuck (`goes`, `rests`), it ends after a known number of events (`falls`,
/// `most`) at the first failure, as its posts alone tell (`end`), and it can go on with more rows (`extends`).
pub fn network_law<S, V>()
    ensures { (n : Shape S V) → Laws n }
{}
