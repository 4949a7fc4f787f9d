ghost use Rattle.std.specs.Prelude.{◌≡◌, ◌≤◌, ◌+◌, ◌∷◌, [], IfOk, None, codes, map};
ghost use Rattle.facet_names.specs.Faults.{path_fault};
ghost use Rattle.facet_model.specs.AskViews.{ask_view};
ghost use Rattle.facet_model.specs.QueryViews.{query_view};
ghost use Rattle.facet_words.specs.CommandViews.{command_view, order_view};
ghost use Rattle.facet_words.specs.Commands.{search};
ghost use Rattle.generator.specs.Generated.{closing_orders, first_ten, generated_search};

use facet_model::{Ask, Drill, Query, Word};
use facet_names::{NoMemory, Path};
use facet_words::{Command, Order, SearchLine};
use std::alloc::Global;

fn query(alloc: Global) -> Result<Query, NoMemory>
    ensures { IfOk result (λ q. query_view q ≡ generated_search.query) }
{
    match Word::new(alloc, "even")? {
        Some(word) => Ok(Query::Term(word)),
        None => unreachable!(),
    }
}

fn drill(alloc: Global) -> Result<Drill, NoMemory>
    ensures { IfOk result (λ d. d ≡ generated_search.drill) }
{
    let path = Path::of_valid(alloc, &["Date", "2000"])?;
    Drill::new(alloc, vec![in alloc; path]?)
}

fn ask(alloc: Global, dim: &str) -> Result<Ask, NoMemory>
    requires { path_fault (dim.now ∷ []) ≡ None }
    ensures { IfOk result (λ a. ask_view a ≡ first_ten dim.now) }
{
    let path = Path::of_valid(alloc, &[dim])?;
    Ok(Ask::Top { path, n: 10 })
}

fn asks(alloc: Global) -> Result<Vec<Ask>, NoMemory>
    ensures { IfOk result (λ v. map ask_view v.items ≡ generated_search.asks) }
{
    let shelves = ask(alloc, "Shelf")?;
    let dates = ask(alloc, "Date")?;
    let tags = ask(alloc, "Tag")?;
    Ok(vec![in alloc; shelves, dates, tags]?)
}

fn search(alloc: Global) -> Result<Command, NoMemory>
    ensures { IfOk result (λ c. command_view c ≡ search None generated_search) }
{
    let query = query(alloc)?;
    let drill = drill(alloc)?;
    let asks = asks(alloc)?;
    let line = SearchLine {
        query,
        drill,
        sideways: true,
        asks,
        newest: false,
        show: false,
        from: 0,
        hits: 10,
    };
    Ok(Command::Search {
        on: None,
        line: Box::new(alloc, line)?,
    })
}

fn by_first(line: u64, command: Command) -> Order
    ensures { order_view result ≡ record { session = 1; line = line; command = command_view command } }
{
    Order {
        session: 1,
        line,
        command,
    }
}

/// Returns the last commands of the first session, from this line on.
#[tactic(auto, unfolding(crate::specs::Generated::closing_orders))]
pub(crate) fn closing_orders(alloc: Global, line: u64) -> Result<Vec<Order>, NoMemory>
    requires { line ≤ 4294967298 }
    ensures { IfOk result (λ v. map order_view v.items ≡ closing_orders line) }
{
    let search = search(alloc)?;
    let refresh = by_first(line, Command::Refresh);
    let commit = by_first(line + 1, Command::Commit);
    let stats = by_first(line + 2, Command::Stats { on: None });
    let search = by_first(line + 3, search);
    Ok(vec![in alloc; refresh, commit, stats, search]?)
}
