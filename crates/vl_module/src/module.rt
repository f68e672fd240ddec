//! The module: its name and ports, its clocked block, and its end.

ghost use Rattle.std.specs.Prelude.{◌<◌, IfOk, IfErr, ◌≡◌, length, map};
ghost use Rattle.vl_tree.specs.Token.{all_coded};
ghost use Rattle.vl_tree.specs.View as view;
ghost use Rattle.vl_tree.specs.Grammar.{port_at, module_at};
ghost use Rattle.vl_module.specs.declared.SynFault.TheVariants as fault;
ghost use Rattle.vl_module.specs.Reading.{Any, Reads};
ghost use Rattle.vl_module.specs.Rules.{range_at, output_at, list_at, header_at, clock_at, clocked_at, range_of, output_of};
ghost use Rattle.vl_module.specs.Rules.{list_of, header_of, clocked_of};

use crate::SynFault;
use crate::stmt::{expect_closing, read_block};
use crate::tokens::{behind_key, behind_mark, expect_key, expect_mark, read_name, read_number};
use dt_core::text::Text;
use sqlite_items::Items;
use std::alloc::Global;
use vl_tree::token::{Key, Literal, Mark, Token};
use vl_tree::tree::{Module, Port, Stmt};

// `[` left `:` right `]`
fn read_range(tokens: &[Token], depth: u32) -> Result<((Literal, Literal), &[Token]), SynFault>
    ensures reads { Reads range_of (range_at depth) Any (all_coded tokens.now) result }
    ensures certain { IfErr result (λ e. e ≡ fault.NoTree) }
{
    let rest = expect_mark(tokens, depth, Mark::OpenBracket)?;
    let (left, rest) = read_number(rest, depth + 1)?;
    let rest = expect_mark(rest, depth + 1, Mark::Colon)?;
    let (right, rest) = read_number(rest, depth + 1)?;
    let rest = expect_mark(rest, depth, Mark::CloseBracket)?;
    Ok(((left, right), rest))
}

// An output, from its `output` on.
fn read_output(
    alloc: Global,
    tokens: &[Token],
    depth: u32,
) -> Result<(((Literal, Literal), Text), &[Token]), SynFault>
    ensures reads { Reads output_of (output_at depth) Any (all_coded tokens.now) result }
    ensures shorter { IfOk result (λ x. length x.1.now < length tokens.now) }
{
    let rest = expect_key(tokens, depth, Key::Output)?;
    let rest = expect_key(rest, depth, Key::Reg)?;
    let (range, rest) = read_range(rest, depth)?;
    let (name, rest) = read_name(alloc, rest, depth)?;
    Ok(((range, name), rest))
}

// A port.
fn read_port(alloc: Global, tokens: &[Token], depth: u32) -> Result<(Port, &[Token]), SynFault>
    ensures reads { Reads view.port (port_at depth) Any (all_coded tokens.now) result }
    ensures shorter { IfOk result (λ x. length x.1.now < length tokens.now) }
{
    match behind_key(tokens, depth, Key::Input) {
        Some(rest) => {
            let (name, rest) = read_name(alloc, rest, depth)?;
            Ok((Port::Input(name), rest))
        }
        None => {
            let (((left, right), name), rest) = read_output(alloc, tokens, depth)?;
            Ok((Port::Output(name, left, right), rest))
        }
    }
}

// The ports of the header, from `(` to `;`.
fn read_ports(alloc: Global, tokens: &[Token]) -> Result<(Vec<Port>, &[Token]), SynFault>
    ensures reads { Reads list_of list_at Any (all_coded tokens.now) result }
{
    let mut rest = expect_mark(tokens, 0, Mark::OpenParen)?;
    let mut ports = Vec::new(alloc);
    loop {
        let (port, after) = read_port(alloc, rest, 1)?;
        let Ok(()) = ports.push(port) else {
            return Err(SynFault::Memory);
        };
        match behind_mark(after, 1, Mark::Comma) {
            Some(inner) => rest = inner,
            None => {
                let rest = expect_closing(after, 0)?;
                return Ok((ports, rest));
            }
        }
    }
}

// The module's name and its ports.
fn read_header(alloc: Global, tokens: &[Token]) -> Result<((Text, Vec<Port>), &[Token]), SynFault>
    ensures reads { Reads header_of header_at Any (all_coded tokens.now) result }
{
    let rest = expect_key(tokens, 0, Key::Module)?;
    let (name, rest) = read_name(alloc, rest, 0)?;
    let (ports, rest) = read_ports(alloc, rest)?;
    Ok(((name, ports), rest))
}

// The clock of the clocked block, from `always` to `)`.
fn read_clock(alloc: Global, tokens: &[Token], depth: u32) -> Result<(Text, &[Token]), SynFault>
    ensures reads { Reads (λ clock. clock) (clock_at depth) Any (all_coded tokens.now) result }
{
    let rest = expect_key(tokens, depth, Key::Always)?;
    let rest = expect_mark(rest, depth, Mark::At)?;
    let rest = expect_mark(rest, depth, Mark::OpenParen)?;
    let rest = expect_key(rest, depth + 1, Key::Posedge)?;
    let (clock, rest) = read_name(alloc, rest, depth + 1)?;
    let rest = expect_mark(rest, depth, Mark::CloseParen)?;
    Ok((clock, rest))
}

// The clocked block: its clock and its statements.
fn read_always(
    alloc: Global,
    tokens: &[Token],
    depth: u32,
) -> Result<((Text, Items<Stmt>), &[Token]), SynFault>
    ensures reads { Reads clocked_of (clocked_at depth) Any (all_coded tokens.now) result }
{
    let (clock, rest) = read_clock(alloc, tokens, depth)?;
    let (body, rest) = read_block(alloc, rest, depth)?;
    Ok(((clock, body), rest))
}

/// A module, to its `endmodule`.
pub fn read_module(alloc: Global, tokens: &[Token]) -> Result<(Module, &[Token]), SynFault>
    ensures reads { Reads view.module_of module_at Any (all_coded tokens.now) result }
{
    let ((name, ports), rest) = read_header(alloc, tokens)?;
    let ((clock, body), rest) = read_always(alloc, rest, 1)?;
    let rest = expect_key(rest, 0, Key::Endmodule)?;
    Ok((
        Module {
            name,
            ports,
            clock,
            body,
        },
        rest,
    ))
}
