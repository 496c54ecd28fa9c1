//! The names that stand in a unit as variables, formal arguments, constants or the result of a FUNCTION.
#![tactic(auto, using(crate::proofs::Meetings::with_names_append))]

ghost use Rattle.std.specs.Prelude.{◌≡◌, [], ◌∷◌, ◌++◌, IfOk, List, ℕ, Bool, OnOk, map};
ghost use Rattle.std.specs.List.{flat_map};
ghost use Rattle.fm_rules.specs.Arrays.{is_array};
ghost use Rattle.fm_rules.specs.Occurrences.{in_bound, in_call_part, in_channel, in_decl, in_defined, in_entry, in_extent, in_extra, in_field, in_fields, in_item, in_kind, in_loop, in_placed, in_simple, in_tree, in_trees, in_var, in_where, first_occurrences, occurrences, one_name, optional, stands_in, subscripted};
ghost use Rattle.fm_rules.specs.SizedFields.{sizes_of};
ghost use Rattle.fm_names_used.specs.Seen.{occurrence_of, with_names, with_occurrences};
ghost use Rattle.fm_tree.specs.PortReading.{fields_of, kind_of};
ghost use Rattle.fm_tree.specs.Tree.{trees_from};

use fm_base::{Line, Name, NoMemory, Seq};
use fm_finmap::{NameMap, NameTable};
use fm_rules::{ArrayShape, Occurrence, sized_by};
use fm_tree::{
    Bound, CallPart, Decl, Defined, Entry, Expr, ExprNode, Extra, Field, Item, Kind, LoopHead,
    Placed, PortType, Simple, Stmt, Unit, Var, Where,
};
use std::alloc::Global;

type Arrays = NameMap<ArrayShape>;

// The names that were met, each with the line of its first statement.
type Seen = NameTable<Line>;

/// What names stand in, where a test tells which names are those of arrays.
trait Standing {
    ghost names: { (List ℕ → Bool) → Self → List (List ℕ) };

    /// Meets the names in a statement at this line, in the order of the text.
    fn meet(
        &self,
        alloc: Global,
        arrays: &Arrays,
        line: Line,
        seen: &mut Seen,
    ) -> Result<(), NoMemory>
        ensures { OnOk result (seen.new ≡ with_names line seen.old (names (is_array arrays.now) self.now)) };
}

fn meet_all<T: Standing>(
    alloc: Global,
    arrays: &Arrays,
    line: Line,
    items: &[T],
    seen: &mut Seen,
) -> Result<(), NoMemory>
    ensures { OnOk result (seen.new ≡ with_names line seen.old (flat_map (T.names (is_array arrays.now)) items.now)) }
{
    'items: for item in items {
        item.meet(alloc, arrays, line, seen)?;
    }
    Ok(())
}

fn meet_optional<T: Standing>(
    alloc: Global,
    arrays: &Arrays,
    line: Line,
    item: &Option<T>,
    seen: &mut Seen,
) -> Result<(), NoMemory>
    ensures { OnOk result (seen.new ≡ with_names line seen.old (optional (T.names (is_array arrays.now)) item.now)) }
{
    match item {
        None => Ok(()),
        Some(item) => item.meet(alloc, arrays, line, seen),
    }
}

fn meet_listed<T: Standing>(
    alloc: Global,
    arrays: &Arrays,
    line: Line,
    items: &Option<Seq<T>>,
    seen: &mut Seen,
) -> Result<(), NoMemory>
    ensures { OnOk result
        (seen.new ≡ with_names line seen.old (optional (flat_map (T.names (is_array arrays.now))) items.now)) }
{
    match items {
        None => Ok(()),
        Some(items) => meet_all::<T>(alloc, arrays, line, items.as_slice(), seen),
    }
}

impl Standing for Name {
    ghost names = { λ array name. one_name name };

    fn meet(
        &self,
        alloc: Global,
        arrays: &Arrays,
        line: Line,
        seen: &mut Seen,
    ) -> Result<(), NoMemory> {
        let _arrays = arrays;
        seen.insert_new(alloc, self, line)
    }
}

fn meet_subscripted(
    alloc: Global,
    arrays: &Arrays,
    line: Line,
    name: &Name,
    seen: &mut Seen,
) -> Result<(), NoMemory>
    ensures { OnOk result (seen.new ≡ with_names line seen.old (subscripted (is_array arrays.now name.now) name.now)) }
{
    if arrays.contains_key(name) {
        seen.insert_new(alloc, name, line)
    } else {
        Ok(())
    }
}

#[cycle(expressions)]
fn meet_expr(
    alloc: Global,
    arrays: &Arrays,
    line: Line,
    expr: &Expr,
    seen: &mut Seen,
) -> Result<(), NoMemory>
    ensures { OnOk result (seen.new ≡ with_names line seen.old (in_tree (is_array arrays.now) expr.now)) }
{
    match &expr.node {
        ExprNode::Number(_) => Ok(()),
        ExprNode::Truth(_) => Ok(()),
        ExprNode::Named(name) => seen.insert_new(alloc, name, line),
        ExprNode::Ref(name, args) => {
            meet_subscripted(alloc, arrays, line, name, seen)?;
            meet_exprs(alloc, arrays, line, args, seen)
        }
        ExprNode::Paren(inner) => meet_expr(alloc, arrays, line, inner, seen),
        ExprNode::Signed(_, inner) => meet_expr(alloc, arrays, line, inner, seen),
        ExprNode::Not(inner) => meet_expr(alloc, arrays, line, inner, seen),
        ExprNode::Binary(_, left, right) => {
            meet_expr(alloc, arrays, line, left, seen)?;
            meet_expr(alloc, arrays, line, right, seen)
        }
    }
}

#[cycle(expressions)]
fn meet_exprs(
    alloc: Global,
    arrays: &Arrays,
    line: Line,
    exprs: &[Expr],
    seen: &mut Seen,
) -> Result<(), NoMemory>
    ensures { OnOk result
        (seen.new ≡ with_names line seen.old (in_trees (is_array arrays.now) (trees_from exprs.now))) }
{
    'exprs: for expr in exprs {
        meet_expr(alloc, arrays, line, expr, seen)?;
    }
    Ok(())
}

impl Standing for Expr {
    ghost names = { in_tree };

    fn meet(
        &self,
        alloc: Global,
        arrays: &Arrays,
        line: Line,
        seen: &mut Seen,
    ) -> Result<(), NoMemory> {
        meet_expr(alloc, arrays, line, self, seen)
    }
}

impl Standing for Var {
    ghost names = { in_var };

    fn meet(
        &self,
        alloc: Global,
        arrays: &Arrays,
        line: Line,
        seen: &mut Seen,
    ) -> Result<(), NoMemory> {
        seen.insert_new(alloc, &self.name, line)?;
        meet_all::<Expr>(alloc, arrays, line, self.subscripts.as_slice(), seen)
    }
}

impl Standing for Bound {
    ghost names = { in_bound };

    fn meet(
        &self,
        alloc: Global,
        arrays: &Arrays,
        line: Line,
        seen: &mut Seen,
    ) -> Result<(), NoMemory> {
        meet_optional::<Expr>(alloc, arrays, line, &self.low, seen)?;
        self.high.meet(alloc, arrays, line, seen)
    }
}

impl Standing for Decl {
    ghost names = { in_decl };

    fn meet(
        &self,
        alloc: Global,
        arrays: &Arrays,
        line: Line,
        seen: &mut Seen,
    ) -> Result<(), NoMemory> {
        seen.insert_new(alloc, &self.name, line)?;
        meet_all::<Bound>(alloc, arrays, line, self.bounds.as_slice(), seen)
    }
}

impl Standing for Defined {
    ghost names = { in_defined };

    fn meet(
        &self,
        alloc: Global,
        arrays: &Arrays,
        line: Line,
        seen: &mut Seen,
    ) -> Result<(), NoMemory> {
        seen.insert_new(alloc, &self.name, line)?;
        self.value.meet(alloc, arrays, line, seen)
    }
}

// The bounds of a field. The name by which an earlier field sizes it isn't met.
fn meet_extent(
    alloc: Global,
    arrays: &Arrays,
    line: Line,
    size: Option<usize>,
    bounds: &[Bound],
    seen: &mut Seen,
) -> Result<(), NoMemory>
    ensures { OnOk result (seen.new ≡ with_names line seen.old (in_extent (is_array arrays.now) size bounds.now)) }
{
    match size {
        Some(_) => Ok(()),
        None => meet_all::<Bound>(alloc, arrays, line, bounds, seen),
    }
}

#[cycle(fields)]
fn meet_fields(
    alloc: Global,
    arrays: &Arrays,
    line: Line,
    fields: &[Field],
    seen: &mut Seen,
) -> Result<(), NoMemory>
    ensures { OnOk result
        (seen.new ≡ with_names line seen.old (in_fields (is_array arrays.now) [] (fields_of fields.now))) }
{
    'fields: for index in 0..fields.len() {
        let (earlier, _) = fields.split_at(index);
        meet_field(alloc, arrays, line, earlier, &fields[index], seen)?;
    }
    Ok(())
}

#[cycle(fields)]
fn meet_field(
    alloc: Global,
    arrays: &Arrays,
    line: Line,
    earlier: &[Field],
    field: &Field,
    seen: &mut Seen,
) -> Result<(), NoMemory>
    ensures { OnOk result
        (seen.new ≡ with_names line seen.old (in_field (is_array arrays.now) (sizes_of earlier.now) field.now)) }
{
    meet_kind(alloc, arrays, line, &field.kind, seen)?;
    let size = sized_by(earlier, field);
    meet_extent(alloc, arrays, line, size, field.bounds.as_slice(), seen)
}

#[cycle(fields)]
fn meet_kind(
    alloc: Global,
    arrays: &Arrays,
    line: Line,
    kind: &Kind,
    seen: &mut Seen,
) -> Result<(), NoMemory>
    ensures { OnOk result (seen.new ≡ with_names line seen.old (in_kind (is_array arrays.now) (kind_of kind.now))) }
{
    match kind {
        Kind::Integer => Ok(()),
        Kind::Logical => Ok(()),
        Kind::In(inside) => meet_port_type(alloc, arrays, line, inside, seen),
        Kind::Out(inside) => meet_port_type(alloc, arrays, line, inside, seen),
    }
}

#[cycle(fields)]
fn meet_port_type(
    alloc: Global,
    arrays: &Arrays,
    line: Line,
    port_type: &PortType,
    seen: &mut Seen,
) -> Result<(), NoMemory>
    ensures { OnOk result (seen.new ≡ with_names line seen.old (in_fields (is_array arrays.now) [] port_type.now)) }
{
    meet_fields(alloc, arrays, line, port_type.as_slice(), seen)
}

impl Standing for LoopHead {
    ghost names = { in_loop };

    fn meet(
        &self,
        alloc: Global,
        arrays: &Arrays,
        line: Line,
        seen: &mut Seen,
    ) -> Result<(), NoMemory> {
        seen.insert_new(alloc, &self.variable, line)?;
        self.from.meet(alloc, arrays, line, seen)?;
        self.to.meet(alloc, arrays, line, seen)?;
        meet_optional::<Expr>(alloc, arrays, line, &self.step, seen)
    }
}

impl Standing for Item {
    ghost names = { in_item };

    fn meet(
        &self,
        alloc: Global,
        arrays: &Arrays,
        line: Line,
        seen: &mut Seen,
    ) -> Result<(), NoMemory> {
        match self {
            Item::Expr(value) => value.meet(alloc, arrays, line, seen),
            Item::Constant(_) => Ok(()),
        }
    }
}

impl Standing for Extra {
    ghost names = { in_extra };

    fn meet(
        &self,
        alloc: Global,
        arrays: &Arrays,
        line: Line,
        seen: &mut Seen,
    ) -> Result<(), NoMemory> {
        match self {
            Extra::End(_) => Ok(()),
            Extra::Iostat(variable) => variable.meet(alloc, arrays, line, seen),
        }
    }
}

impl Standing for Where {
    ghost names = { in_where };

    fn meet(
        &self,
        alloc: Global,
        arrays: &Arrays,
        line: Line,
        seen: &mut Seen,
    ) -> Result<(), NoMemory> {
        match self {
            Where::Location(subscripts) => {
                meet_all::<Expr>(alloc, arrays, line, subscripts.as_slice(), seen)
            }
            Where::Submachine(first, last) => {
                first.meet(alloc, arrays, line, seen)?;
                last.meet(alloc, arrays, line, seen)
            }
        }
    }
}

impl Standing for CallPart {
    ghost names = { in_call_part };

    fn meet(
        &self,
        alloc: Global,
        arrays: &Arrays,
        line: Line,
        seen: &mut Seen,
    ) -> Result<(), NoMemory> {
        meet_all::<Expr>(alloc, arrays, line, self.arguments.as_slice(), seen)?;
        meet_optional::<Where>(alloc, arrays, line, &self.place, seen)
    }
}

fn meet_two(
    alloc: Global,
    arrays: &Arrays,
    line: Line,
    first: &Var,
    second: &Var,
    seen: &mut Seen,
) -> Result<(), NoMemory>
    ensures { OnOk result (seen.new
        ≡ with_names line seen.old
        (in_var (is_array arrays.now) first.now ++ in_var (is_array arrays.now) second.now)) }
{
    first.meet(alloc, arrays, line, seen)?;
    second.meet(alloc, arrays, line, seen)
}

fn meet_channel(
    alloc: Global,
    arrays: &Arrays,
    line: Line,
    in_first: bool,
    inport: &Var,
    outport: &Var,
    seen: &mut Seen,
) -> Result<(), NoMemory>
    ensures { OnOk result
        (seen.new ≡ with_names line seen.old (in_channel (is_array arrays.now) in_first inport.now outport.now)) }
{
    if in_first {
        meet_two(alloc, arrays, line, inport, outport, seen)
    } else {
        meet_two(alloc, arrays, line, outport, inport, seen)
    }
}

fn meet_receive(
    alloc: Global,
    arrays: &Arrays,
    line: Line,
    port: &Var,
    extras: &[Extra],
    items: &[Var],
    seen: &mut Seen,
) -> Result<(), NoMemory>
    ensures { OnOk result (seen.new
        ≡ with_names line seen.old (in_var (is_array arrays.now) port.now
        ++ (flat_map (in_extra (is_array arrays.now)) extras.now
        ++ flat_map (in_var (is_array arrays.now)) items.now))) }
{
    port.meet(alloc, arrays, line, seen)?;
    meet_all::<Extra>(alloc, arrays, line, extras, seen)?;
    meet_all::<Var>(alloc, arrays, line, items, seen)
}

#[tactic(auto, using(crate::proofs::Meetings::with_names_append), unfolding(fm_rules::specs::Occurrences::in_simple))]
fn meet_simple(
    alloc: Global,
    arrays: &Arrays,
    line: Line,
    simple: &Simple,
    seen: &mut Seen,
) -> Result<(), NoMemory>
    ensures { OnOk result (seen.new ≡ with_names line seen.old (in_simple (is_array arrays.now) simple.now)) }
{
    match simple {
        Simple::Assignment(target, value) => {
            target.meet(alloc, arrays, line, seen)?;
            value.meet(alloc, arrays, line, seen)
        }
        Simple::Goto(_) => Ok(()),
        Simple::Continue => Ok(()),
        Simple::Return => Ok(()),
        Simple::Stop => Ok(()),
        Simple::Call(_, arguments) => { meet_listed::<Expr>(alloc, arrays, line, arguments, seen) }
        Simple::Print(items) => meet_all::<Item>(alloc, arrays, line, items.as_slice(), seen),
        Simple::Write(_, items) => meet_all::<Item>(alloc, arrays, line, items.as_slice(), seen),
        Simple::Channel {
            in_first,
            inport,
            outport,
        } => meet_channel(alloc, arrays, line, *in_first, inport, outport, seen),
        Simple::Merger(inport, outports) => {
            inport.meet(alloc, arrays, line, seen)?;
            meet_all::<Var>(alloc, arrays, line, outports.as_slice(), seen)
        }
        Simple::Send {
            named: _,
            port,
            items,
        } => {
            port.meet(alloc, arrays, line, seen)?;
            meet_all::<Expr>(alloc, arrays, line, items.as_slice(), seen)
        }
        Simple::Receive {
            named: _,
            port,
            extras,
            items,
        } => {
            let extras = extras.as_slice();
            meet_receive(alloc, arrays, line, port, extras, items.as_slice(), seen)
        }
        Simple::EndChannel { named: _, port } => port.meet(alloc, arrays, line, seen),
        Simple::MovePort { from, to } => meet_two(alloc, arrays, line, from, to, seen),
        Simple::Probe {
            named: _,
            port,
            empty,
        } => meet_two(alloc, arrays, line, port, empty, seen),
    }
}

fn meet_heading(
    alloc: Global,
    arrays: &Arrays,
    line: Line,
    name: &Name,
    formals: &[Name],
    seen: &mut Seen,
) -> Result<(), NoMemory>
    ensures { OnOk result (seen.new ≡ with_names line seen.old (name.now ∷ flat_map one_name formals.now)) }
{
    seen.insert_new(alloc, name, line)?;
    meet_all::<Name>(alloc, arrays, line, formals, seen)
}

fn meet_ports(
    alloc: Global,
    arrays: &Arrays,
    line: Line,
    port_type: &PortType,
    decls: &[Decl],
    seen: &mut Seen,
) -> Result<(), NoMemory>
    ensures { OnOk result (seen.new
        ≡ with_names line seen.old
        (in_fields (is_array arrays.now) [] port_type.now ++ flat_map (in_decl (is_array arrays.now)) decls.now)) }
{
    meet_port_type(alloc, arrays, line, port_type, seen)?;
    meet_all::<Decl>(alloc, arrays, line, decls, seen)
}

fn meet_logical_if(
    alloc: Global,
    arrays: &Arrays,
    line: Line,
    condition: &Expr,
    contained: &Simple,
    seen: &mut Seen,
) -> Result<(), NoMemory>
    ensures { OnOk result (seen.new
        ≡ with_names line seen.old
        (in_tree (is_array arrays.now) condition.now ++ in_simple (is_array arrays.now) contained.now)) }
{
    condition.meet(alloc, arrays, line, seen)?;
    meet_simple(alloc, arrays, line, contained, seen)
}

#[tactic(auto, using(crate::proofs::Meetings::with_names_append), unfolding(fm_rules::specs::Occurrences::stands_in))]
fn meet_stmt(
    alloc: Global,
    arrays: &Arrays,
    line: Line,
    stmt: &Stmt,
    seen: &mut Seen,
) -> Result<(), NoMemory>
    ensures { OnOk result (seen.new ≡ with_names line seen.old (stands_in (is_array arrays.now) stmt.now)) }
{
    match stmt {
        Stmt::Program(_) => Ok(()),
        Stmt::Process(_, formals) => meet_listed::<Name>(alloc, arrays, line, formals, seen),
        Stmt::Subroutine(_, formals) => meet_listed::<Name>(alloc, arrays, line, formals, seen),
        Stmt::Function(name, formals) => {
            meet_heading(alloc, arrays, line, name, formals.as_slice(), seen)
        }
        Stmt::IntegerFunction(name, formals) => {
            meet_heading(alloc, arrays, line, name, formals.as_slice(), seen)
        }
        Stmt::LogicalFunction(name, formals) => {
            meet_heading(alloc, arrays, line, name, formals.as_slice(), seen)
        }
        Stmt::ImplicitNone => Ok(()),
        Stmt::Integer(decls) => meet_all::<Decl>(alloc, arrays, line, decls.as_slice(), seen),
        Stmt::Logical(decls) => meet_all::<Decl>(alloc, arrays, line, decls.as_slice(), seen),
        Stmt::Dimension(decls) => meet_all::<Decl>(alloc, arrays, line, decls.as_slice(), seen),
        Stmt::Parameter(constants) => {
            meet_all::<Defined>(alloc, arrays, line, constants.as_slice(), seen)
        }
        Stmt::Inport(port_type, decls) => {
            meet_ports(alloc, arrays, line, port_type, decls.as_slice(), seen)
        }
        Stmt::Outport(port_type, decls) => {
            meet_ports(alloc, arrays, line, port_type, decls.as_slice(), seen)
        }
        Stmt::Intent(_, names) => meet_all::<Name>(alloc, arrays, line, names.as_slice(), seen),
        Stmt::Processors(extents) => {
            meet_all::<Expr>(alloc, arrays, line, extents.as_slice(), seen)
        }
        Stmt::Simple(simple) => meet_simple(alloc, arrays, line, simple, seen),
        Stmt::LogicalIf(condition, contained) => {
            meet_logical_if(alloc, arrays, line, condition, contained, seen)
        }
        Stmt::BlockIf(condition) => condition.meet(alloc, arrays, line, seen),
        Stmt::ElseIf(condition) => condition.meet(alloc, arrays, line, seen),
        Stmt::Else => Ok(()),
        Stmt::EndIf => Ok(()),
        Stmt::Do(head) => head.meet(alloc, arrays, line, seen),
        Stmt::DoWhile(condition) => condition.meet(alloc, arrays, line, seen),
        Stmt::EndDo => Ok(()),
        Stmt::End => Ok(()),
        Stmt::Processes => Ok(()),
        Stmt::EndProcesses => Ok(()),
        Stmt::ProcessCall(_, part) => { meet_optional::<CallPart>(alloc, arrays, line, part, seen) }
        Stmt::ProcessDo(head) => head.meet(alloc, arrays, line, seen),
        Stmt::EndProcessDo => Ok(()),
        Stmt::LoopEnd => Ok(()),
    }
}

#[tactic(auto, using(crate::proofs::Meetings::at_line))]
fn meet_placed(
    alloc: Global,
    arrays: &Arrays,
    placed: &Placed,
    seen: &mut Seen,
) -> Result<(), NoMemory>
    ensures { OnOk result (seen.new ≡ with_occurrences seen.old (in_placed (is_array arrays.now) placed.now)) }
{
    meet_stmt(alloc, arrays, placed.line, &placed.stmt, seen)
}

#[tactic(auto, using(crate::proofs::Meetings::at_line))]
fn meet_entry(
    alloc: Global,
    arrays: &Arrays,
    entry: &Entry,
    seen: &mut Seen,
) -> Result<(), NoMemory>
    ensures { OnOk result (seen.new ≡ with_occurrences seen.old (in_entry (is_array arrays.now) entry.now)) }
{
    meet_stmt(alloc, arrays, entry.line, &entry.stmt, seen)
}

#[tactic(auto, using(crate::proofs::Meetings::with_occurrences_append))]
fn meet_specs(
    alloc: Global,
    arrays: &Arrays,
    specs: &[Placed],
    seen: &mut Seen,
) -> Result<(), NoMemory>
    ensures { OnOk result
        (seen.new ≡ with_occurrences seen.old (flat_map (in_placed (is_array arrays.now)) specs.now)) }
{
    'specs: for placed in specs {
        meet_placed(alloc, arrays, placed, seen)?;
    }
    Ok(())
}

#[tactic(auto, using(crate::proofs::Meetings::with_occurrences_append))]
fn meet_body(
    alloc: Global,
    arrays: &Arrays,
    body: &[Entry],
    seen: &mut Seen,
) -> Result<(), NoMemory>
    ensures { OnOk result (seen.new ≡ with_occurrences seen.old (flat_map (in_entry (is_array arrays.now)) body.now)) }
{
    'body: for entry in body {
        meet_entry(alloc, arrays, entry, seen)?;
    }
    Ok(())
}

// The names that were met, with their lines.
fn in_order(alloc: Global, seen: Seen) -> Result<Seq<Occurrence>, NoMemory>
    ensures { IfOk result (λ os. os ≡ map occurrence_of seen) }
{
    let mut first = Seq::new(alloc);
    'names: for (name, line) in seen {
        first.push(Occurrence { name, line })?;
    }
    Ok(first)
}

#[tactic(auto, using(crate::proofs::Meetings::with_occurrences_append, crate::proofs::Meetings::firsts))]
/// The names that stand in a unit as variables, formal arguments, constants or the result of a FUNCTION, each once, in
/// the order of the text, with the line of its first statement.
pub fn first_occurrences(
    alloc: Global,
    arrays: &Arrays,
    unit: &Unit,
) -> Result<Seq<Occurrence>, NoMemory>
    ensures { IfOk result (λ os. os ≡ first_occurrences (occurrences (is_array arrays.now) unit.now)) }
{
    let mut seen = NameTable::new(alloc);
    meet_placed(alloc, arrays, &unit.heading, &mut seen)?;
    meet_specs(alloc, arrays, unit.specs.as_slice(), &mut seen)?;
    meet_body(alloc, arrays, unit.body.as_slice(), &mut seen)?;
    in_order(alloc, seen)
}
