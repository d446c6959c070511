// The section of each label of a process, as code that has not been looked at.
ghost use Rattle.std.specs.Prelude.{◌≡◌, ◌++◌, map, IfOk};
ghost use Rattle.pgo_section_list.specs.Sections.{end_code, follow_code, in_sequence, label_above, next_code, section_view, see, source_sections, surroundings};
ghost use Rattle.pgo_effects.specs.SettingView.{setting_view};
ghost use Rattle.pgo_effects.specs.Todos.{code_of, codes_of, part_code};
ghost use Rattle.pgo_meaning.specs.LabelSections.{AreUnlabelled};
ghost use Rattle.pgo_meaning.specs.Labels.{own};
ghost use Rattle.pgo_meaning.specs.MacrosPlaced.{bodies, placed};
ghost use Rattle.pgo_meaning.specs.Sections.{sections_of};
ghost use Rattle.pgo_meaning.specs.Parameters.{setting_of};
ghost use Rattle.pgo_meaning.specs.Statements.{Setting as Meant, code, label_of};
ghost use Rattle.pgo_sections.specs.Code.{Seq};
ghost use Rattle.pgo_syntax.specs.StatementView.{statement};

use crate::inner::{Inner, in_block, inners_of};
use pgo_base::text::Text;
use pgo_effects::around::Around;
use pgo_effects::indexed_archetype::IndexedArchetype;
use pgo_effects::indexed_macros::IndexedMacros;
use pgo_effects::setting::Setting;
use pgo_effects::todo::{Part, Todo};
use pgo_effects::written::written_label;
use pgo_rewrite::indexed_bindings::IndexedBindings;
use pgo_syntax::statement::Stmt;
use std::alloc::{AllocError, Global};

/// The section of a label: its written name, what is done one after the other, and what is done then.
#[derive(Drop)]
pub struct Section<'a> {
    pub label: Text,
    pub todos: Vec<Todo<'a>>,
    pub end: Todo<'a>,
}

/// How what follows a statement ends.
#[derive(Clone, Copy)]
pub enum End<'a> {
    /// at `Done`
    Done,
    /// with the jump to this label, that of a `while`
    Again(Option<&'a Text>),
}

impl<'a> End<'a> {
    /// It as code that has not been looked at.
    fn todo(self) -> Todo<'a>
        ensures { (s : Meant) → code_of s result ≡ end_code s self.entry }
    {
        match self {
            End::Done => Todo::End,
            End::Again(label) => Todo::Goto(label),
        }
    }
}

/// What follows a statement: what is done one after the other, and how it ends.
#[derive(Drop)]
pub struct Follow<'a> {
    pub todos: Vec<Todo<'a>>,
    pub end: End<'a>,
}

/// Whose statements they are, and the macros that may be called in them.
#[derive(Clone, Copy)]
pub struct Source<'a, 'i> {
    pub setting: Setting<'a, 'i>,
    pub macros: &'i IndexedMacros<'a>,
}

/// A part of the source's text below a label.
fn todo_in<'a>(
    alloc: Global,
    source: Source<'a, '_>,
    label: Option<&'a Text>,
    part: Part<'a>,
) -> Result<Todo<'a>, AllocError>
    ensures { IfOk result (λ t. (s : Meant) → code_of s t ≡ part_code s (surroundings source.entry label.entry) part.entry) }
{
    let mut around = Around::new(alloc, source.macros.copy()?)?;
    around.label = label;
    Ok(Todo::Text(part, around))
}

/// These, and then what follows.
fn before<'a>(
    alloc: Global,
    mut todos: Vec<Todo<'a>>,
    follow: &Follow<'a>,
) -> Result<Follow<'a>, AllocError>
    ensures { IfOk result (λ f. (s : Meant) → follow_code s f ≡ in_sequence (codes_of s todos.entry.items) (follow_code s follow.now)) }
{
    for todo in &follow.todos {
        todos.push(todo.copy(alloc)?)?;
    }
    Ok(Follow {
        todos,
        end: follow.end,
    })
}

/// This, and then what follows.
fn first<'a>(alloc: Global, todo: Todo<'a>, follow: &Follow<'a>) -> Result<Follow<'a>, AllocError>
    ensures { IfOk result (λ f. (s : Meant) → follow_code s f ≡ Seq (code_of s todo.entry) (follow_code s follow.now)) }
{
    let mut todos = Vec::new(alloc);
    todos.push(todo)?;
    before(alloc, todos, follow)
}

/// What follows a statement that stands in another one, where this is what follows that one.
fn behind<'a>(
    alloc: Global,
    source: Source<'a, '_>,
    label: Option<&'a Text>,
    inner: Inner<'a>,
    follow: &Follow<'a>,
) -> Result<Follow<'a>, AllocError>
    ensures { IfOk result (λ f. (s : Meant) → follow_code s f ≡ next_code s (bodies source.entry.macros.now) (label_above s label.entry) (see inner.entry).2 (follow_code s follow.now)) }
{
    match inner {
        Inner::Row(_, list) => {
            let todo = todo_in(alloc, source, label, Part::Order(list))?;
            first(alloc, todo, follow)
        }
        Inner::Alone(_) => before(alloc, Vec::new(alloc), follow),
        Inner::Loop(_) => Ok(Follow {
            todos: Vec::new(alloc),
            end: End::Again(label),
        }),
    }
}

/// The section of a label before this statement.
fn own_section<'a>(
    alloc: Global,
    source: Source<'a, '_>,
    label: &'a Text,
    t: &'a Stmt,
    follow: &Follow<'a>,
) -> Result<Section<'a>, AllocError>
    ensures { IfOk result (λ p. section_view (setting_view source.entry.setting) p ≡ (label_of (setting_view source.entry.setting).process label.entry.now, Seq (code (setting_view source.entry.setting) (label_of (setting_view source.entry.setting).process label.entry.now) (placed (bodies source.entry.macros.now) (statement t.entry.now))) (follow_code (setting_view source.entry.setting) follow.now))) }
{
    let todo = todo_in(alloc, source, Some(label), Part::Statement(t))?;
    let whole = first(alloc, todo, follow)?;
    let label = written_label(alloc, source.setting, label)?;
    Ok(Section {
        label,
        todos: whole.todos,
        end: whole.end.todo(),
    })
}

/// Adds the section of the statement's own label, if it has one.
fn add_own<'a>(
    sections: &mut Vec<Section<'a>>,
    alloc: Global,
    source: Source<'a, '_>,
    inner: Inner<'a>,
    follow: &Follow<'a>,
) -> Result<(), AllocError>
    ensures { IfOk result (λ _. map (section_view (setting_view source.entry.setting)) sections.new.items ≡ map (section_view (setting_view source.entry.setting)) sections.old.items ++ own (setting_view source.entry.setting) (see inner.entry).0 (placed (bodies source.entry.macros.now) (see inner.entry).1) (follow_code (setting_view source.entry.setting) follow.now)) }
{
    match inner.label() {
        None => Ok(()),
        Some(x) => {
            let section = own_section(alloc, source, &x.name, inner.statement(), follow)?;
            sections.push(section)?;
            Ok(())
        }
    }
}

/// Adds the sections of these statements' labels and of those in them.
fn gather<'a>(
    sections: &mut Vec<Section<'a>>,
    alloc: Global,
    source: Source<'a, '_>,
    label: Option<&'a Text>,
    list: &[Inner<'a>],
    follow: &Follow<'a>,
) -> Result<(), AllocError>
    requires { AreUnlabelled source.macros.now }
    ensures { IfOk result (λ _. map (section_view (setting_view source.entry.setting)) sections.new.items ≡ map (section_view (setting_view source.entry.setting)) sections.old.items ++ source_sections source.entry (label_above (setting_view source.entry.setting) label.entry) (follow_code (setting_view source.entry.setting) follow.now) (map see list.entry.now)) }
{
    for inner in list {
        let next = behind(alloc, source, label, *inner, follow)?;
        add_own(sections, alloc, source, *inner, &next)?;
        let inners = inners_of(alloc, inner.statement())?;
        gather(
            sections,
            alloc,
            source,
            inner.label_or(label),
            inners.as_slice(),
            &next,
        )?;
    }
    Ok(())
}

/// The sections of a process that runs an archetype, in the order in which their labels stand in the text.
///
/// Err where there is no memory.
pub fn sections<'a, 'i>(
    alloc: Global,
    macros: &'i IndexedMacros<'a>,
    process: &'a Text,
    archetype: &'i IndexedArchetype<'a>,
    bindings: &'i IndexedBindings<'a>,
) -> Result<Vec<Section<'a>>, AllocError>
    requires { AreUnlabelled macros.now }
    ensures { IfOk result (λ v. map (section_view (setting_of process.entry.now archetype.entry.now bindings.entry.now)) v.items ≡ sections_of macros.entry.now process.entry.now archetype.entry.now bindings.entry.now) }
{
    let setting = Setting::Process {
        name: process,
        archetype,
        bindings,
    };
    let source = Source { setting, macros };
    let end = Follow {
        todos: Vec::new(alloc),
        end: End::Done,
    };
    let inners = in_block(alloc, archetype.archetype().body.as_slice())?;
    let mut sections = Vec::new(alloc);
    gather(&mut sections, alloc, source, None, inners.as_slice(), &end)?;
    Ok(sections)
}
