//! Whether a name of a statement is too long.
#![tactic(auto, using(crate::proofs::Long::long_append))]

ghost use Rattle.std.specs.Prelude.{◌≡◌, ◌∷◌, ◌++◌, List, ℕ};
ghost use Rattle.std.specs.List.{flat_map};
ghost use Rattle.fm_stmt.specs.Names.{bound_names, call_part_names, decl_names, defined_names, extra_names, field_names, fields_names, has_long, is_long, item_names, kind_names, loop_names, names_of, one_name, option_names, simple_names, tree_names, trees_names, var_names, where_names};
ghost use Rattle.fm_tree.specs.PortReading.{fields_of, kind_of};
ghost use Rattle.fm_tree.specs.Tree.{trees_from};

use fm_base::{Name, Seq};
use fm_tree::{
    Bound, CallPart, Decl, Defined, Expr, ExprNode, Extra, Field, Item, Kind, LoopHead, PortType,
    Simple, Stmt, Var, Where,
};

/// What has names.
trait Named {
    ghost names: { Self → List (List ℕ) };

    /// Whether one of them has over 31 characters.
    fn has_long(&self) -> bool
        ensures { result ≡ has_long (names self.now) };
}

fn any_long<T: Named>(items: &[T]) -> bool
    ensures { result ≡ has_long (flat_map T.names items.now) }
{
    'items: for item in items {
        if item.has_long() {
            return true;
        }
    }
    false
}

fn option_long<T: Named>(item: &Option<T>) -> bool
    ensures { result ≡ has_long (option_names T.names item.now) }
{
    match item {
        None => false,
        Some(item) => item.has_long(),
    }
}

fn either_long<A: Named, B: Named>(first: &A, second: &B) -> bool
    ensures { result ≡ has_long (A.names first.now ++ B.names second.now) }
{
    first.has_long() || second.has_long()
}

fn long_with<A: Named, T: Named>(first: &A, others: &[T]) -> bool
    ensures { result ≡ has_long (A.names first.now ++ flat_map T.names others.now) }
{
    first.has_long() || any_long::<T>(others)
}

impl Named for Name {
    ghost names = { one_name };

    fn has_long(&self) -> bool {
        self.as_bytes().len() > 31
    }
}

#[cycle(expressions)]
fn expr_long(expr: &Expr) -> bool
    ensures { result ≡ has_long (tree_names expr.now) }
{
    match &expr.node {
        ExprNode::Number(_) => false,
        ExprNode::Truth(_) => false,
        ExprNode::Named(name) => name.has_long(),
        ExprNode::Ref(name, args) => name.has_long() || any_expr_long(args),
        ExprNode::Paren(inner) => expr_long(inner),
        ExprNode::Signed(_, inner) => expr_long(inner),
        ExprNode::Not(inner) => expr_long(inner),
        ExprNode::Binary(_, left, right) => expr_long(left) || expr_long(right),
    }
}

#[cycle(expressions)]
fn any_expr_long(exprs: &[Expr]) -> bool
    ensures { result ≡ has_long (trees_names (trees_from exprs.now)) }
{
    'exprs: for expr in exprs {
        if expr_long(expr) {
            return true;
        }
    }
    false
}

impl Named for Expr {
    ghost names = { tree_names };

    fn has_long(&self) -> bool {
        expr_long(self)
    }
}

impl Named for Var {
    ghost names = { var_names };

    fn has_long(&self) -> bool {
        self.name.has_long() || any_long::<Expr>(self.subscripts.as_slice())
    }
}

impl Named for Bound {
    ghost names = { bound_names };

    fn has_long(&self) -> bool {
        option_long::<Expr>(&self.low) || self.high.has_long()
    }
}

impl Named for Decl {
    ghost names = { decl_names };

    fn has_long(&self) -> bool {
        self.name.has_long() || any_long::<Bound>(self.bounds.as_slice())
    }
}

impl Named for Defined {
    ghost names = { defined_names };

    fn has_long(&self) -> bool {
        self.name.has_long() || self.value.has_long()
    }
}

#[cycle(fields)]
fn fields_long(fields: &[Field]) -> bool
    ensures { result ≡ has_long (fields_names (fields_of fields.now)) }
{
    'fields: for field in fields {
        if field_long(field) {
            return true;
        }
    }
    false
}

#[cycle(fields)]
fn field_long(field: &Field) -> bool
    ensures { result ≡ has_long (field_names field.now) }
{
    kind_long(&field.kind)
        || option_long::<Name>(&field.name)
        || any_long::<Bound>(field.bounds.as_slice())
}

#[cycle(fields)]
fn kind_long(kind: &Kind) -> bool
    ensures { result ≡ has_long (kind_names (kind_of kind.now)) }
{
    match kind {
        Kind::Integer => false,
        Kind::Logical => false,
        Kind::In(inside) => port_type_long(inside),
        Kind::Out(inside) => port_type_long(inside),
    }
}

#[cycle(fields)]
fn port_type_long(port_type: &PortType) -> bool
    ensures { result ≡ has_long (fields_names port_type.now) }
{
    fields_long(port_type.as_slice())
}

impl Named for LoopHead {
    ghost names = { loop_names };

    fn has_long(&self) -> bool {
        self.variable.has_long()
            || self.from.has_long()
            || self.to.has_long()
            || option_long::<Expr>(&self.step)
    }
}

impl Named for Item {
    ghost names = { item_names };

    fn has_long(&self) -> bool {
        match self {
            Item::Expr(value) => value.has_long(),
            Item::Constant(_) => false,
        }
    }
}

impl Named for Extra {
    ghost names = { extra_names };

    fn has_long(&self) -> bool {
        match self {
            Extra::End(_) => false,
            Extra::Iostat(variable) => variable.has_long(),
        }
    }
}

impl Named for Where {
    ghost names = { where_names };

    fn has_long(&self) -> bool {
        match self {
            Where::Location(subscripts) => any_long::<Expr>(subscripts.as_slice()),
            Where::Submachine(first, last) => first.has_long() || last.has_long(),
        }
    }
}

impl Named for CallPart {
    ghost names = { call_part_names };

    fn has_long(&self) -> bool {
        any_long::<Expr>(self.arguments.as_slice()) || option_long::<Where>(&self.place)
    }
}

fn option_any_long<T: Named>(items: &Option<Seq<T>>) -> bool
    ensures { result ≡ has_long (option_names (flat_map T.names) items.now) }
{
    match items {
        None => false,
        Some(items) => any_long::<T>(items.as_slice()),
    }
}

impl Named for Simple {
    ghost names = { simple_names };

    fn has_long(&self) -> bool {
        match self {
            Simple::Assignment(target, value) => either_long::<Var, Expr>(target, value),
            Simple::Goto(_) => false,
            Simple::Continue => false,
            Simple::Return => false,
            Simple::Stop => false,
            Simple::Call(name, arguments) => {
                name.has_long() || option_any_long::<Expr>(arguments)
            }
            Simple::Print(items) => any_long::<Item>(items.as_slice()),
            Simple::Write(_, items) => any_long::<Item>(items.as_slice()),
            Simple::Channel {
                in_first: _,
                inport,
                outport,
            } => either_long::<Var, Var>(inport, outport),
            Simple::Merger(inport, outports) => {
                long_with::<Var, Var>(inport, outports.as_slice())
            }
            Simple::Send {
                named: _,
                port,
                items,
            } => long_with::<Var, Expr>(port, items.as_slice()),
            Simple::Receive {
                named: _,
                port,
                extras,
                items,
            } => {
                port.has_long()
                    || any_long::<Extra>(extras.as_slice())
                    || any_long::<Var>(items.as_slice())
            }
            Simple::EndChannel { named: _, port } => port.has_long(),
            Simple::MovePort { from, to } => either_long::<Var, Var>(from, to),
            Simple::Probe {
                named: _,
                port,
                empty,
            } => either_long::<Var, Var>(port, empty),
        }
    }
}

fn heading_long(name: &Name, formals: &[Name]) -> bool
    ensures { result ≡ has_long (name.now ∷ flat_map one_name formals.now) }
{
    name.has_long() || any_long::<Name>(formals)
}

fn ports_long(fields: &PortType, decls: &[Decl]) -> bool
    ensures { result ≡ has_long (fields_names fields.now ++ flat_map decl_names decls.now) }
{
    port_type_long(fields) || any_long::<Decl>(decls)
}

/// Whether a name of the statement has over 31 characters. The keyword before a field's name does
/// not belong to it.
pub fn statement_long(statement: &Stmt) -> bool
    ensures { result ≡ has_long (names_of statement.now) }
{
    match statement {
        Stmt::Program(name) => name.has_long(),
        Stmt::Process(name, formals) => name.has_long() || option_any_long::<Name>(formals),
        Stmt::Subroutine(name, formals) => name.has_long() || option_any_long::<Name>(formals),
        Stmt::Function(name, formals) => heading_long(name, formals.as_slice()),
        Stmt::IntegerFunction(name, formals) => heading_long(name, formals.as_slice()),
        Stmt::LogicalFunction(name, formals) => heading_long(name, formals.as_slice()),
        Stmt::ImplicitNone => false,
        Stmt::Integer(decls) => any_long::<Decl>(decls.as_slice()),
        Stmt::Logical(decls) => any_long::<Decl>(decls.as_slice()),
        Stmt::Dimension(decls) => any_long::<Decl>(decls.as_slice()),
        Stmt::Parameter(constants) => any_long::<Defined>(constants.as_slice()),
        Stmt::Inport(fields, decls) => ports_long(fields, decls.as_slice()),
        Stmt::Outport(fields, decls) => ports_long(fields, decls.as_slice()),
        Stmt::Intent(_, names) => any_long::<Name>(names.as_slice()),
        Stmt::Processors(extents) => any_long::<Expr>(extents.as_slice()),
        Stmt::Simple(simple) => simple.has_long(),
        Stmt::LogicalIf(condition, contained) => either_long::<Expr, Simple>(condition, contained),
        Stmt::BlockIf(condition) => condition.has_long(),
        Stmt::ElseIf(condition) => condition.has_long(),
        Stmt::Else => false,
        Stmt::EndIf => false,
        Stmt::Do(head) => head.has_long(),
        Stmt::DoWhile(condition) => condition.has_long(),
        Stmt::EndDo => false,
        Stmt::End => false,
        Stmt::Processes => false,
        Stmt::EndProcesses => false,
        Stmt::ProcessCall(name, part) => name.has_long() || option_long::<CallPart>(part),
        Stmt::ProcessDo(head) => head.has_long(),
        Stmt::EndProcessDo => false,
        Stmt::LoopEnd => false,
    }
}
