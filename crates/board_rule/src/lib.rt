//! The rule of a board that threads share, and its steps, over words and views: no post and no thread.
//!
//! A board is a table of words. Who makes steps on it has a seat, and a seat has a view: the run that all name, and the
//! posts that it has (`view`). The rule (`specs/Rule`) says which words and views may stand together; `plays` names the
//! steps, and `specs/Plays` says what each makes of a view, which events of the network it is (`specs/Events`), and
//! what it lets the seat know.
//!
//! Below: `token_net`, which says what holds of posts, what a post allows and what an event makes of them; `named_run`,
//! the run that contracts name; the kit's `atomic_table`. Above: `gang_board`, whose calls make these steps.
//! Promise: `board_law`, over every state of the table: each of the six calls is one event of the network on the posts
//! of the whole board, allowed where it is made, and seats that are split and joined leave the posts; so all that holds
//! of posts holds between any two steps (`specs/Laws`). `event_law` and `allowed_law` tie these events to those of the
//! network: what they make of posts, and where they are allowed (`specs/Allowed`). `gang_board`'s calls rest on these
//! laws.
#![tactic(auto)]

ghost use Rattle.std.specs.Prelude.{◌≡◌, ℕ};
ghost use Rattle.atomic_table.specs.Table.{State};
ghost use Rattle.token_net.specs.Shape.{Shape, Run};
ghost use Rattle.token_net.specs.Network.{Config, Event, after};
ghost use Rattle.token_net.specs.Holds.{Holds};
ghost use Rattle.board_rule.specs.Views.{Named};
ghost use Rattle.board_rule.specs.Events.{posts_after};
ghost use Rattle.board_rule.specs.Allowed.{AllowedLaws};
ghost use Rattle.board_rule.specs.Laws.{BoardLaws};
ghost use Rattle.board_rule.specs.declared.view.View.{View};

pub mod plays;
pub mod setup;
pub mod view;

/// The laws of the board, for every run that a seat names, in every state of the table that keeps the rule: a call is
/// one event on all posts (`raises`, `halts`, `reports`, `sees_fire`, `sees_leader`, `lag_raises`), and seats that are
/// split or joined leave them (`splits_leader`, `splits_lagger`, `splits_none`, `joins`).
pub fn board_law()
    ensures { (n : Named) (s : State ℕ View) (id : ℕ) → BoardLaws n s id }
{}

/// What an event makes of posts (`posts_after`) is what it makes of them in the network, whatever the type `S` of a
/// partition's state and the type `V` of a token's values.
pub fn event_law<S, V>()
    ensures { (n : Shape S V) (c : Config S V) (e : Event) → (after n c e).posts ≡ posts_after e c.posts }
{}

/// Posts allow an event exactly where the network enables it, but for what a partition alone knows: for every network,
/// run and configuration in which all holds (`raises`, `halts`, `reports`, `lag_raises`, `sees`, `sees_fire`). A look
/// that posts allow is such an event, or leaves all posts, or is one of a leader that no longer runs (`looks`,
/// `fire_looks`).
pub fn allowed_law<S, V>()
    ensures { (n : Shape S V) (r : Run S V) (c : Config S V) → Holds n r c → AllowedLaws n r c }
{}
