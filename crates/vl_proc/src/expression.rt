//! Nodes of expressions, at the width and the sign of their context.

ghost use Rattle.std.specs.Prelude.{◌≡◌, ◌≤◌, true, ◌&&◌, IfOk};
ghost use Rattle.vl_tree.specs.View as view;
ghost use Rattle.vl_meaning.specs.Expression as meant;
ghost use Rattle.vl_meaning.specs.Faults.{is_expr, is_primary, is_read};
ghost use Rattle.vl_meaning.specs.Run.{val};
ghost use Rattle.vl_meaning.specs.StandsFor.{by_names};
ghost use Rattle.vl_proc.specs.Scopes.{IsKnown, module_in};
ghost use Rattle.vl_proc.specs.Lowers.{bare, context, Makes};

use crate::builder::Nodes;
use crate::names::Scope;
use bit_ops::numbers::extend;
use dt_core::fault::NoMemory;
use dt_core::text::Text;
use flat_ir::design::{Node, Role};
use vl_tree::expr::{Binary, Expr, Primary, Unary};

/// The node of a condition: an expression at its own width and sign.
pub fn condition(nodes: &mut Nodes, scope: &Scope, e: &Expr) -> Result<u32, NoMemory>
    requires known { IsKnown scope.now }
    requires sound { is_expr (module_in scope.now) (view.expr e.now) ≡ true }
    ensures { let m = module_in scope.now in IfOk result (λ k. Makes m nodes.old nodes.new k (λ row state. meant.own (meant.meaning (context m row state) (view.expr e.now)))) }
{
    expression(nodes, scope, e, width(scope, e), signed(e))
}

/// The node of what a target of a width takes: the expression at the larger width, cut to the target's.
pub fn assigned(nodes: &mut Nodes, scope: &Scope, e: &Expr, target: u32) -> Result<u32, NoMemory>
    requires known { IsKnown scope.now }
    requires sound { is_expr (module_in scope.now) (view.expr e.now) ≡ true }
    requires range { (1 ≤ target) × (target ≤ 128) }
    ensures { let m = module_in scope.now in IfOk result (λ k. Makes m nodes.old nodes.new k (λ row state. meant.assigned target (meant.meaning (context m row state) (view.expr e.now)))) }
{
    let wide = width(scope, e).max(target);
    let node = expression(nodes, scope, e, wide, signed(e))?;
    if wide > target {
        nodes.add(Node::Cut(node, target))
    } else {
        Ok(node)
    }
}

// The width of an expression of its own.
fn width(scope: &Scope, e: &Expr) -> u32
    requires known { IsKnown scope.now }
    requires sound { is_expr (module_in scope.now) (view.expr e.now) ≡ true }
    ensures value { result ≡ (meant.meaning (bare (module_in scope.now)) (view.expr e.now)).width }
    ensures range { (1 ≤ result) × (result ≤ 128) }
{
    match e {
        Expr::Primary(a) => primary_width(scope, a),
        Expr::Unary(operator, a) => unary_width(*operator, primary_width(scope, a)),
        Expr::Binary(a, operator, b) => {
            binary_width(*operator, primary_width(scope, a), primary_width(scope, b))
        }
    }
}

// Whether an expression is signed of its own.
fn signed(e: &Expr) -> bool
    ensures { (c : meant.Context) → result ≡ (meant.meaning c (view.expr e.now)).signed }
{
    match e {
        Expr::Primary(a) => primary_signed(a),
        Expr::Unary(operator, a) => unary_signed(*operator, primary_signed(a)),
        Expr::Binary(a, operator, b) => {
            binary_signed(*operator, primary_signed(a), primary_signed(b))
        }
    }
}

fn primary_width(scope: &Scope, a: &Primary) -> u32
    requires known { IsKnown scope.now }
    requires sound { is_primary (module_in scope.now) (view.primary a.now) ≡ true }
    ensures value { result ≡ (meant.primary_meaning (bare (module_in scope.now)) (view.primary a.now)).width }
    ensures range { (1 ≤ result) × (result ≤ 128) }
{
    match a {
        Primary::Name(name) => scope.signal(name).width,
        Primary::Number(l) => l.width,
    }
}

// A name is unsigned, since no declaration has a sign.
fn primary_signed(a: &Primary) -> bool
    ensures { (c : meant.Context) → result ≡ (meant.primary_meaning c (view.primary a.now)).signed }
{
    match a {
        Primary::Name(_) => false,
        Primary::Number(l) => l.signed,
    }
}

fn both_signed(a: &Primary, b: &Primary) -> bool
    ensures { (c : meant.Context) → result ≡ ((meant.primary_meaning c (view.primary a.now)).signed && (meant.primary_meaning c (view.primary b.now)).signed) }
{
    primary_signed(a) && primary_signed(b)
}

// The width of an operator's value, by its operand's.
fn unary_width(operator: Unary, a: u32) -> u32
    requires range { (1 ≤ a) × (a ≤ 128) }
    ensures value { (x : meant.Meaning) → a ≡ x.width → result ≡ (meant.unary_meaning operator x).width }
    ensures range { (1 ≤ result) × (result ≤ 128) }
{
    match operator {
        Unary::LogicNot => 1,
    }
}

// Whether an operator's value is signed, by its operand's sign.
fn unary_signed(operator: Unary, a: bool) -> bool
    ensures { (x : meant.Meaning) → a ≡ x.signed → result ≡ (meant.unary_meaning operator x).signed }
{
    match operator {
        Unary::LogicNot => false,
    }
}

// The width of an operator's value, by its operands'.
fn binary_width(operator: Binary, a: u32, b: u32) -> u32
    requires left { (1 ≤ a) × (a ≤ 128) }
    requires right { (1 ≤ b) × (b ≤ 128) }
    ensures value { (x y : meant.Meaning) → a ≡ x.width → b ≡ y.width → result ≡ (meant.binary_meaning operator x y).width }
    ensures range { (1 ≤ result) × (result ≤ 128) }
{
    match operator {
        Binary::Add => a.max(b),
        Binary::Equal => 1,
    }
}

// Whether an operator's value is signed, by its operands' signs.
fn binary_signed(operator: Binary, a: bool, b: bool) -> bool
    ensures { (x y : meant.Meaning) → a ≡ x.signed → b ≡ y.signed → result ≡ (meant.binary_meaning operator x y).signed }
{
    match operator {
        Binary::Add => a && b,
        Binary::Equal => false,
    }
}

// The node of an expression's value at a width and a sign.
fn expression(
    nodes: &mut Nodes,
    scope: &Scope,
    e: &Expr,
    width: u32,
    signed: bool,
) -> Result<u32, NoMemory>
    requires known { IsKnown scope.now }
    requires sound { is_expr (module_in scope.now) (view.expr e.now) ≡ true }
    requires wide { (meant.meaning (bare (module_in scope.now)) (view.expr e.now)).width ≤ width }
    requires range { (1 ≤ width) × (width ≤ 128) }
    ensures { let m = module_in scope.now in IfOk result (λ k. Makes m nodes.old nodes.new k (λ row state. (meant.meaning (context m row state) (view.expr e.now)).at width signed)) }
{
    match e {
        Expr::Primary(a) => primary(nodes, scope, a, width, signed),
        Expr::Unary(operator, a) => match operator {
            Unary::LogicNot => logically_negated(nodes, scope, a),
        },
        Expr::Binary(a, operator, b) => match operator {
            Binary::Add => sum(nodes, scope, a, b, width, signed),
            Binary::Equal => equality(nodes, scope, a, b),
        },
    }
}

// The node of a logical negation: the operand at its own width and sign.
fn logically_negated(nodes: &mut Nodes, scope: &Scope, a: &Primary) -> Result<u32, NoMemory>
    requires known { IsKnown scope.now }
    requires sound { is_primary (module_in scope.now) (view.primary a.now) ≡ true }
    ensures { let m = module_in scope.now in IfOk result (λ k. Makes m nodes.old nodes.new k (λ row state. meant.own (meant.logically_negated (meant.primary_meaning (context m row state) (view.primary a.now))))) }
{
    let own = primary(nodes, scope, a, primary_width(scope, a), primary_signed(a))?;
    nodes.add(Node::Not(own))
}

// The node of a sum: both operands at the context's width and sign.
fn sum(
    nodes: &mut Nodes,
    scope: &Scope,
    a: &Primary,
    b: &Primary,
    width: u32,
    signed: bool,
) -> Result<u32, NoMemory>
    requires known { IsKnown scope.now }
    requires left { is_primary (module_in scope.now) (view.primary a.now) ≡ true }
    requires right { is_primary (module_in scope.now) (view.primary b.now) ≡ true }
    requires left_wide { (meant.primary_meaning (bare (module_in scope.now)) (view.primary a.now)).width ≤ width }
    requires right_wide { (meant.primary_meaning (bare (module_in scope.now)) (view.primary b.now)).width ≤ width }
    requires range { (1 ≤ width) × (width ≤ 128) }
    ensures { let m = module_in scope.now in IfOk result (λ k. Makes m nodes.old nodes.new k (λ row state. (meant.summed (meant.primary_meaning (context m row state) (view.primary a.now)) (meant.primary_meaning (context m row state) (view.primary b.now))).at width signed)) }
{
    let left = primary(nodes, scope, a, width, signed)?;
    let right = primary(nodes, scope, b, width, signed)?;
    nodes.add(Node::Sum(left, right, width))
}

// The node of an equality: both operands at the larger width, signed where both are.
fn equality(nodes: &mut Nodes, scope: &Scope, a: &Primary, b: &Primary) -> Result<u32, NoMemory>
    requires known { IsKnown scope.now }
    requires left { is_primary (module_in scope.now) (view.primary a.now) ≡ true }
    requires right { is_primary (module_in scope.now) (view.primary b.now) ≡ true }
    ensures { let m = module_in scope.now in IfOk result (λ k. Makes m nodes.old nodes.new k (λ row state. meant.own (meant.compared (meant.primary_meaning (context m row state) (view.primary a.now)) (meant.primary_meaning (context m row state) (view.primary b.now))))) }
{
    let width = primary_width(scope, a).max(primary_width(scope, b));
    let signed = both_signed(a, b);
    let left = primary(nodes, scope, a, width, signed)?;
    let right = primary(nodes, scope, b, width, signed)?;
    nodes.add(Node::Equal(left, right))
}

// The node of a primary's value at a width and a sign.
fn primary(
    nodes: &mut Nodes,
    scope: &Scope,
    a: &Primary,
    width: u32,
    signed: bool,
) -> Result<u32, NoMemory>
    requires known { IsKnown scope.now }
    requires sound { is_primary (module_in scope.now) (view.primary a.now) ≡ true }
    requires wide { (meant.primary_meaning (bare (module_in scope.now)) (view.primary a.now)).width ≤ width }
    requires narrow { width ≤ 128 }
    ensures { let m = module_in scope.now in IfOk result (λ k. Makes m nodes.old nodes.new k (λ row state. (meant.primary_meaning (context m row state) (view.primary a.now)).at width signed)) }
{
    match a {
        Primary::Name(name) => read(nodes, scope, name),
        Primary::Number(l) => {
            let sign = l.signed && signed;
            nodes.add(Node::Constant(extend(l.value, l.width, width, sign)))
        }
    }
}

/// The node of a name's value.
pub fn read(nodes: &mut Nodes, scope: &Scope, name: &Text) -> Result<u32, NoMemory>
    requires known { IsKnown scope.now }
    requires sound { is_read (module_in scope.now) name.now ≡ true }
    ensures { let m = module_in scope.now in IfOk result (λ k. Makes m nodes.old nodes.new k (λ row state. meant.value_at (val m row (by_names m state)) name.now)) }
{
    match scope.signal(name).role {
        Role::Input(input) => nodes.add(Node::Input(input)),
        Role::Register(register) => nodes.add(Node::Register(register)),
        Role::Clock => unreachable!(),
    }
}
