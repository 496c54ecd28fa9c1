//! The names with a list in parentheses in a statement, one after the other in the order of evaluation.
#![tactic(auto)]

ghost use Rattle.std.specs.Prelude.{◌≡◌, ◌++◌, [], ◌∷◌, List};
ghost use Rattle.std.specs.List.{flat_map};
ghost use Rattle.std.specs.Option.{option_copied};
ghost use Rattle.fm_tree.specs.Tree.{Tree, trees_from};
ghost use Rattle.fm_tree.specs.References.{applied, applied_each, applied_in, in_arguments, in_call, in_channel, in_extra, in_item, in_loop, in_optional, in_place, in_simple, in_var, in_where, reference_at};
ghost use Rattle.fm_tree_reference.specs.Found.{IsFound};

use fm_base::Seq;
use fm_tree::{CallPart, Expr, ExprNode, Extra, Item, LoopHead, Simple, Stmt, Var, Where};

/// What was found of a place among names.
#[derive(Clone, Copy)]
enum Found<'a> {
    /// The name with its list.
    Here(&'a Expr),
    /// The place among those behind.
    Behind(usize),
}

/// What has expressions.
trait Applies {
    ghost applied: { Self → List Tree };

    /// The name at this place among its names with a list in parentheses.
    fn find<'a>(&'a self, place: usize) -> Found<'a>
        ensures { IsFound (applied self.now) place result };
}

fn find_all<'a, T: Applies>(items: &'a [T], place: usize) -> Found<'a>
    ensures { IsFound (flat_map T.applied items.now) place result }
{
    let mut left = place;
    'items: for item in items {
        match item.find(left) {
            Found::Here(name) => return Found::Here(name),
            Found::Behind(behind) => left = behind,
        }
    }
    Found::Behind(left)
}

#[cycle(expression)]
fn find_expr<'a>(expr: &'a Expr, place: usize) -> Found<'a>
    ensures { IsFound (applied expr.now) place result }
{
    match &expr.node {
        ExprNode::Number(_) => Found::Behind(place),
        ExprNode::Truth(_) => Found::Behind(place),
        ExprNode::Named(_) => Found::Behind(place),
        ExprNode::Ref(_, args) => match find_exprs(args, place) {
            Found::Here(name) => Found::Here(name),
            Found::Behind(0) => Found::Here(expr),
            Found::Behind(behind) => Found::Behind(behind - 1),
        },
        ExprNode::Paren(inner) => find_expr(inner, place),
        ExprNode::Signed(_, inner) => find_expr(inner, place),
        ExprNode::Not(inner) => find_expr(inner, place),
        ExprNode::Binary(_, left, right) => match find_expr(left, place) {
            Found::Here(name) => Found::Here(name),
            Found::Behind(behind) => find_expr(right, behind),
        },
    }
}

#[cycle(expression)]
fn find_exprs<'a>(exprs: &'a [Expr], place: usize) -> Found<'a>
    ensures { IsFound (applied_each (trees_from exprs.now)) place result }
{
    let mut left = place;
    'exprs: for expr in exprs {
        match find_expr(expr, left) {
            Found::Here(name) => return Found::Here(name),
            Found::Behind(behind) => left = behind,
        }
    }
    Found::Behind(left)
}

impl Applies for Expr {
    ghost applied = { applied };

    fn find<'a>(&'a self, place: usize) -> Found<'a> {
        find_expr(self, place)
    }
}

impl Applies for Var {
    ghost applied = { in_var };

    fn find<'a>(&'a self, place: usize) -> Found<'a> {
        find_all::<Expr>(self.subscripts.as_slice(), place)
    }
}

impl Applies for Item {
    ghost applied = { in_item };

    fn find<'a>(&'a self, place: usize) -> Found<'a> {
        match self {
            Item::Expr(value) => find_expr(value, place),
            Item::Constant(_) => Found::Behind(place),
        }
    }
}

impl Applies for Extra {
    ghost applied = { in_extra };

    fn find<'a>(&'a self, place: usize) -> Found<'a> {
        match self {
            Extra::End(_) => Found::Behind(place),
            Extra::Iostat(variable) => variable.find(place),
        }
    }
}

fn find_both<'a, A: Applies, B: Applies>(first: &'a A, second: &'a B, place: usize) -> Found<'a>
    ensures { IsFound (A.applied first.now ++ B.applied second.now) place result }
{
    match first.find(place) {
        Found::Here(name) => Found::Here(name),
        Found::Behind(behind) => second.find(behind),
    }
}

fn find_with<'a, A: Applies, B: Applies>(first: &'a A, others: &'a [B], place: usize) -> Found<'a>
    ensures { IsFound (A.applied first.now ++ flat_map B.applied others.now) place result }
{
    match first.find(place) {
        Found::Here(name) => Found::Here(name),
        Found::Behind(behind) => find_all(others, behind),
    }
}

impl Applies for Where {
    ghost applied = { in_where };

    fn find<'a>(&'a self, place: usize) -> Found<'a> {
        match self {
            Where::Location(subscripts) => find_all::<Expr>(subscripts.as_slice(), place),
            Where::Submachine(first, last) => find_both::<Expr, Expr>(first, last, place),
        }
    }
}

fn find_place<'a>(at: &'a Option<Where>, place: usize) -> Found<'a>
    ensures { IsFound (in_place at.now) place result }
{
    match at {
        None => Found::Behind(place),
        Some(at) => at.find(place),
    }
}

fn find_call<'a>(part: &'a Option<CallPart>, place: usize) -> Found<'a>
    ensures { IsFound (in_call part.now) place result }
{
    match part {
        None => Found::Behind(place),
        Some(part) => match find_all::<Expr>(part.arguments.as_slice(), place) {
            Found::Here(name) => Found::Here(name),
            Found::Behind(behind) => find_place(&part.place, behind),
        },
    }
}

fn find_arguments<'a>(arguments: &'a Option<Seq<Expr>>, place: usize) -> Found<'a>
    ensures { IsFound (in_arguments arguments.now) place result }
{
    match arguments {
        None => Found::Behind(place),
        Some(arguments) => find_all::<Expr>(arguments.as_slice(), place),
    }
}

fn find_optional<'a>(expr: &'a Option<Expr>, place: usize) -> Found<'a>
    ensures { IsFound (in_optional expr.now) place result }
{
    match expr {
        None => Found::Behind(place),
        Some(expr) => find_expr(expr, place),
    }
}

fn find_step<'a>(head: &'a LoopHead, place: usize) -> Found<'a>
    ensures { IsFound (applied head.now.to ++ in_optional head.now.step) place result }
{
    match find_expr(&head.to, place) {
        Found::Here(name) => Found::Here(name),
        Found::Behind(behind) => find_optional(&head.step, behind),
    }
}

fn find_loop<'a>(head: &'a LoopHead, place: usize) -> Found<'a>
    ensures { IsFound (in_loop head.now) place result }
{
    match find_expr(&head.from, place) {
        Found::Here(name) => Found::Here(name),
        Found::Behind(behind) => find_step(head, behind),
    }
}

fn find_channel<'a>(in_first: bool, inport: &'a Var, outport: &'a Var, place: usize) -> Found<'a>
    ensures { IsFound (in_channel in_first inport.now outport.now) place result }
{
    if in_first {
        find_both::<Var, Var>(inport, outport, place)
    } else {
        find_both::<Var, Var>(outport, inport, place)
    }
}

fn find_received<'a>(extras: &'a [Extra], items: &'a [Var], place: usize) -> Found<'a>
    ensures { IsFound (flat_map in_extra extras.now ++ flat_map in_var items.now) place result }
{
    match find_all::<Extra>(extras, place) {
        Found::Here(name) => Found::Here(name),
        Found::Behind(behind) => find_all::<Var>(items, behind),
    }
}

fn find_receive<'a>(port: &'a Var, extras: &'a [Extra], items: &'a [Var], place: usize) -> Found<'a>
    ensures { IsFound (in_var port.now ++ flat_map in_extra extras.now ++ flat_map in_var items.now) place result }
{
    match port.find(place) {
        Found::Here(name) => Found::Here(name),
        Found::Behind(behind) => find_received(extras, items, behind),
    }
}

#[tactic(auto, unfolding(fm_tree::specs::References::in_simple))]
fn find_simple<'a>(simple: &'a Simple, place: usize) -> Found<'a>
    ensures { IsFound (in_simple simple.now) place result }
{
    match simple {
        Simple::Assignment(target, value) => find_both::<Var, Expr>(target, value, place),
        Simple::Goto(_) => Found::Behind(place),
        Simple::Continue => Found::Behind(place),
        Simple::Return => Found::Behind(place),
        Simple::Stop => Found::Behind(place),
        Simple::Call(_, arguments) => find_arguments(arguments, place),
        Simple::Print(items) => find_all::<Item>(items.as_slice(), place),
        Simple::Write(_, items) => find_all::<Item>(items.as_slice(), place),
        Simple::Channel {
            in_first,
            inport,
            outport,
        } => find_channel(*in_first, inport, outport, place),
        Simple::Merger(inport, outports) => {
            find_with::<Var, Var>(inport, outports.as_slice(), place)
        }
        Simple::Send {
            named: _,
            port,
            items,
        } => find_with::<Var, Expr>(port, items.as_slice(), place),
        Simple::Receive {
            named: _,
            port,
            extras,
            items,
        } => find_receive(port, extras.as_slice(), items.as_slice(), place),
        Simple::EndChannel { named: _, port } => port.find(place),
        Simple::MovePort { from, to } => find_both::<Var, Var>(from, to, place),
        Simple::Probe {
            named: _,
            port,
            empty,
        } => find_both::<Var, Var>(port, empty, place),
    }
}

fn find_logical_if<'a>(condition: &'a Expr, contained: &'a Simple, place: usize) -> Found<'a>
    ensures { IsFound (applied condition.now ++ in_simple contained.now) place result }
{
    match find_expr(condition, place) {
        Found::Here(name) => Found::Here(name),
        Found::Behind(behind) => find_simple(contained, behind),
    }
}

#[tactic(auto, unfolding(fm_tree::specs::References::applied_in))]
fn find_stmt<'a>(stmt: &'a Stmt, place: usize) -> Found<'a>
    ensures { IsFound (applied_in stmt.now) place result }
{
    match stmt {
        Stmt::Simple(simple) => find_simple(simple, place),
        Stmt::LogicalIf(condition, contained) => find_logical_if(condition, contained, place),
        Stmt::BlockIf(condition) => find_expr(condition, place),
        Stmt::ElseIf(condition) => find_expr(condition, place),
        Stmt::Do(head) => find_loop(head, place),
        Stmt::DoWhile(condition) => find_expr(condition, place),
        Stmt::ProcessCall(_, part) => find_call(part, place),
        Stmt::ProcessDo(head) => find_loop(head, place),
        _ => Found::Behind(place),
    }
}

/// The name with a list in parentheses at this place, from 0, among those of a statement in the order of evaluation.
pub fn reference_at<'a>(stmt: &'a Stmt, place: u32) -> Option<&'a Expr>
    ensures { option_copied result ≡ reference_at stmt.now place }
{
    match find_stmt(stmt, place as usize) {
        Found::Here(name) => Some(name),
        Found::Behind(_) => None,
    }
}
