//! The names with a list in parentheses in a statement.
#![tactic(auto, using(crate::proofs::Applied::applied_append))]

ghost use Rattle.std.specs.Prelude.{◌≡◌, ◌++◌, [], ◌∷◌, ℕ, List, OnOk, IfOk};
ghost use Rattle.std.specs.List.{flat_map};
ghost use Rattle.fm_tree.specs.Tree.{Tree, trees_from};
ghost use Rattle.fm_tree.specs.References.{applied, applied_each, applied_in, in_arguments, in_call, in_channel, in_extra, in_item, in_loop, in_optional, in_place, in_simple, in_var, in_where};
ghost use Rattle.fm_rules.specs.Applied.{applied_names, visited};

use fm_base::{Name, NoMemory, Seq};
use fm_tree::{CallPart, Expr, ExprNode, Extra, Item, LoopHead, Simple, Stmt, Var, Where};
use std::alloc::Global;

/// What is shown the names with a list in parentheses, one after the other.
pub trait Visitor {
    /// Why it stops early.
    type Error;

    /// What it is when it has seen one more, with this name.
    ghost after: { Self → List ℕ → Tree → Self };

    /// Sees one more: its name, and the whole with its list.
    fn visit(&mut self, name: &Name, reference: &Expr) -> Result<(), Self::Error>
        ensures { OnOk result (self.new ≡ after self.old name.now reference.now) };
}

/// What has expressions.
trait Applies {
    ghost applied: { Self → List Tree };

    /// Shows a visitor its names with a list in parentheses.
    fn accept<V: Visitor>(&self, visitor: &mut V) -> Result<(), V::Error>
        ensures { OnOk result (visitor.new ≡ visited V.after visitor.old (applied self.now)) };
}

fn visit_all<T: Applies, V: Visitor>(items: &[T], visitor: &mut V) -> Result<(), V::Error>
    ensures { OnOk result (visitor.new ≡ visited V.after visitor.old (flat_map T.applied items.now)) }
{
    'items: for item in items {
        item.accept(visitor)?;
    }
    Ok(())
}

#[cycle(expression)]
fn visit_expr<V: Visitor>(expr: &Expr, visitor: &mut V) -> Result<(), V::Error>
    ensures { OnOk result (visitor.new ≡ visited V.after visitor.old (applied expr.now)) }
{
    match &expr.node {
        ExprNode::Number(_) => Ok(()),
        ExprNode::Truth(_) => Ok(()),
        ExprNode::Named(_) => Ok(()),
        ExprNode::Ref(name, args) => {
            visit_exprs(args, visitor)?;
            visitor.visit(name, expr)
        }
        ExprNode::Paren(inner) => visit_expr(inner, visitor),
        ExprNode::Signed(_, inner) => visit_expr(inner, visitor),
        ExprNode::Not(inner) => visit_expr(inner, visitor),
        ExprNode::Binary(_, left, right) => {
            visit_expr(left, visitor)?;
            visit_expr(right, visitor)
        }
    }
}

#[cycle(expression)]
fn visit_exprs<V: Visitor>(exprs: &[Expr], visitor: &mut V) -> Result<(), V::Error>
    ensures { OnOk result (visitor.new ≡ visited V.after visitor.old (applied_each (trees_from exprs.now))) }
{
    'exprs: for expr in exprs {
        visit_expr(expr, visitor)?;
    }
    Ok(())
}

impl Applies for Expr {
    ghost applied = { applied };

    fn accept<V: Visitor>(&self, visitor: &mut V) -> Result<(), V::Error> {
        visit_expr(self, visitor)
    }
}

impl Applies for Var {
    ghost applied = { in_var };

    fn accept<V: Visitor>(&self, visitor: &mut V) -> Result<(), V::Error> {
        visit_all::<Expr, V>(self.subscripts.as_slice(), visitor)
    }
}

impl Applies for Item {
    ghost applied = { in_item };

    fn accept<V: Visitor>(&self, visitor: &mut V) -> Result<(), V::Error> {
        match self {
            Item::Expr(value) => visit_expr(value, visitor),
            Item::Constant(_) => Ok(()),
        }
    }
}

impl Applies for Extra {
    ghost applied = { in_extra };

    fn accept<V: Visitor>(&self, visitor: &mut V) -> Result<(), V::Error> {
        match self {
            Extra::End(_) => Ok(()),
            Extra::Iostat(variable) => variable.accept(visitor),
        }
    }
}

fn visit_both<A: Applies, B: Applies, V: Visitor>(
    first: &A,
    second: &B,
    visitor: &mut V,
) -> Result<(), V::Error>
    ensures { OnOk result (visitor.new ≡ visited V.after visitor.old (A.applied first.now ++ B.applied second.now)) }
{
    first.accept(visitor)?;
    second.accept(visitor)
}

fn visit_with<A: Applies, B: Applies, V: Visitor>(
    first: &A,
    others: &[B],
    visitor: &mut V,
) -> Result<(), V::Error>
    ensures { OnOk result
        (visitor.new ≡ visited V.after visitor.old (A.applied first.now ++ flat_map B.applied others.now)) }
{
    first.accept(visitor)?;
    visit_all(others, visitor)
}

impl Applies for Where {
    ghost applied = { in_where };

    fn accept<V: Visitor>(&self, visitor: &mut V) -> Result<(), V::Error> {
        match self {
            Where::Location(subscripts) => visit_all::<Expr, V>(subscripts.as_slice(), visitor),
            Where::Submachine(first, last) => visit_both::<Expr, Expr, V>(first, last, visitor),
        }
    }
}

fn visit_place<V: Visitor>(place: &Option<Where>, visitor: &mut V) -> Result<(), V::Error>
    ensures { OnOk result (visitor.new ≡ visited V.after visitor.old (in_place place.now)) }
{
    match place {
        None => Ok(()),
        Some(place) => place.accept(visitor),
    }
}

fn visit_call<V: Visitor>(part: &Option<CallPart>, visitor: &mut V) -> Result<(), V::Error>
    ensures { OnOk result (visitor.new ≡ visited V.after visitor.old (in_call part.now)) }
{
    match part {
        None => Ok(()),
        Some(part) => {
            visit_all::<Expr, V>(part.arguments.as_slice(), visitor)?;
            visit_place(&part.place, visitor)
        }
    }
}

fn visit_arguments<V: Visitor>(
    arguments: &Option<Seq<Expr>>,
    visitor: &mut V,
) -> Result<(), V::Error>
    ensures { OnOk result (visitor.new ≡ visited V.after visitor.old (in_arguments arguments.now)) }
{
    match arguments {
        None => Ok(()),
        Some(arguments) => visit_all::<Expr, V>(arguments.as_slice(), visitor),
    }
}

fn visit_optional<V: Visitor>(expr: &Option<Expr>, visitor: &mut V) -> Result<(), V::Error>
    ensures { OnOk result (visitor.new ≡ visited V.after visitor.old (in_optional expr.now)) }
{
    match expr {
        None => Ok(()),
        Some(expr) => visit_expr(expr, visitor),
    }
}

fn visit_loop<V: Visitor>(head: &LoopHead, visitor: &mut V) -> Result<(), V::Error>
    ensures { OnOk result (visitor.new ≡ visited V.after visitor.old (in_loop head.now)) }
{
    visit_both::<Expr, Expr, V>(&head.from, &head.to, visitor)?;
    visit_optional(&head.step, visitor)
}

fn visit_channel<V: Visitor>(
    in_first: bool,
    inport: &Var,
    outport: &Var,
    visitor: &mut V,
) -> Result<(), V::Error>
    ensures { OnOk result (visitor.new ≡ visited V.after visitor.old (in_channel in_first inport.now outport.now)) }
{
    if in_first {
        visit_both::<Var, Var, V>(inport, outport, visitor)
    } else {
        visit_both::<Var, Var, V>(outport, inport, visitor)
    }
}

fn visit_receive<V: Visitor>(
    port: &Var,
    extras: &[Extra],
    items: &[Var],
    visitor: &mut V,
) -> Result<(), V::Error>
    ensures { OnOk result (visitor.new
        ≡ visited V.after visitor.old (in_var port.now ++ flat_map in_extra extras.now ++ flat_map in_var items.now)) }
{
    visit_with::<Var, Extra, V>(port, extras, visitor)?;
    visit_all::<Var, V>(items, visitor)
}

#[tactic(auto, unfolding(fm_tree::specs::References::in_simple))]
fn visit_simple<V: Visitor>(simple: &Simple, visitor: &mut V) -> Result<(), V::Error>
    ensures { OnOk result (visitor.new ≡ visited V.after visitor.old (in_simple simple.now)) }
{
    match simple {
        Simple::Assignment(target, value) => { visit_both::<Var, Expr, V>(target, value, visitor) }
        Simple::Goto(_) => Ok(()),
        Simple::Continue => Ok(()),
        Simple::Return => Ok(()),
        Simple::Stop => Ok(()),
        Simple::Call(_, arguments) => visit_arguments(arguments, visitor),
        Simple::Print(items) => visit_all::<Item, V>(items.as_slice(), visitor),
        Simple::Write(_, items) => visit_all::<Item, V>(items.as_slice(), visitor),
        Simple::Channel {
            in_first,
            inport,
            outport,
        } => visit_channel(*in_first, inport, outport, visitor),
        Simple::Merger(inport, outports) => {
            visit_with::<Var, Var, V>(inport, outports.as_slice(), visitor)
        }
        Simple::Send {
            named: _,
            port,
            items,
        } => visit_with::<Var, Expr, V>(port, items.as_slice(), visitor),
        Simple::Receive {
            named: _,
            port,
            extras,
            items,
        } => visit_receive(port, extras.as_slice(), items.as_slice(), visitor),
        Simple::EndChannel { named: _, port } => port.accept(visitor),
        Simple::MovePort { from, to } => visit_both::<Var, Var, V>(from, to, visitor),
        Simple::Probe {
            named: _,
            port,
            empty,
        } => visit_both::<Var, Var, V>(port, empty, visitor),
    }
}

fn visit_logical_if<V: Visitor>(
    condition: &Expr,
    contained: &Simple,
    visitor: &mut V,
) -> Result<(), V::Error>
    ensures { OnOk result
        (visitor.new ≡ visited V.after visitor.old (applied condition.now ++ in_simple contained.now)) }
{
    visit_expr(condition, visitor)?;
    visit_simple(contained, visitor)
}

/// Shows a visitor each name with a list in parentheses in a statement, in the order of evaluation.
#[tactic(auto, unfolding(fm_tree::specs::References::applied_in))]
pub fn visit_applied<V: Visitor>(stmt: &Stmt, visitor: &mut V) -> Result<(), V::Error>
    ensures { OnOk result (visitor.new ≡ visited V.after visitor.old (applied_in stmt.now)) }
{
    match stmt {
        Stmt::Simple(simple) => visit_simple(simple, visitor),
        Stmt::LogicalIf(condition, contained) => { visit_logical_if(condition, contained, visitor) }
        Stmt::BlockIf(condition) => visit_expr(condition, visitor),
        Stmt::ElseIf(condition) => visit_expr(condition, visitor),
        Stmt::Do(head) => visit_loop(head, visitor),
        Stmt::DoWhile(condition) => visit_expr(condition, visitor),
        Stmt::ProcessCall(_, part) => visit_call(part, visitor),
        Stmt::ProcessDo(head) => visit_loop(head, visitor),
        _ => Ok(()),
    }
}

/// The names that it has seen.
#[derive(Drop)]
struct Names {
    alloc: Global,
    names: Seq<Name>,
}

impl Visitor for Names {
    type Error = NoMemory;

    ghost after = { λ v n t. record v { names = v.names ++ n ∷ [] } };

    fn visit(&mut self, name: &Name, _reference: &Expr) -> Result<(), NoMemory> {
        let name = name.copy(self.alloc)?;
        self.names.push(name)
    }
}

/// The names with a list in parentheses in a statement, in the order of evaluation.
pub fn applied_names(alloc: Global, stmt: &Stmt) -> Result<Seq<Name>, NoMemory>
    ensures { IfOk result (λ names. names ≡ applied_names stmt.now) }
{
    let mut found = Names {
        alloc,
        names: Seq::new(alloc),
    };
    visit_applied(stmt, &mut found)?;
    let Names { alloc: _, names } = found;
    Ok(names)
}
