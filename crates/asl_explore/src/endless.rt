// Worlds from which no end of the execution is reached.
ghost use Rattle.std.specs.Prelude.{◌≡◌, ◌<◌, ℕ, List, true, length, get_or, is_none, IfOk, IfSome};
ghost use Rattle.std.specs.List.{All};
ghost use Rattle.asl_run_state.specs.Bare.{bare};
ghost use Rattle.asl_run_state.specs.World.{World};
ghost use Rattle.asl_run_input.specs.declared.setup.Setup.{Setup};
ghost use Rattle.asl_exec.specs.Probes.{setup_of};
ghost use Rattle.asl_explore.specs.declared.orders.Orders.{Orders};
ghost use Rattle.asl_explore.specs.Endless.{CanEnd, IsLasso};
ghost use Rattle.asl_explore.specs.private.Reaching.{AllBefore, AreReaching, IsLead, IsLeast, IsSoon, LeadsOn, Reaches, is_known};
ghost use Rattle.asl_explore.specs.Searches.{worlds_of};

use crate::lasso::is_lasso;
use crate::met::{Met, Node};
use crate::order::{chance, path};
use crate::orders::Orders;
use crate::search::bound_in;
use crate::visiting::{enter, turns_in};
use asl_exec::Probe;
use asl_history::Place;
use asl_run_input::StepAt;
use asl_run_state::World;
use asl_time::Moment;
use std::alloc::{AllocError, Global};

/// An order that never ends: steps that lead to a world, and others that lead from there back to it, round and round.
#[derive(Drop)]
pub struct Lasso {
    pub stem: Vec<StepAt>,
    pub round: Vec<StepAt>,
}

/// Where a step leads that is tried.
#[derive(Clone, Copy)]
pub(crate) enum Lead {
    /// It isn't known.
    Nowhere,
    /// To an end of the execution.
    End,
    /// To the world of this number.
    World(usize),
}

/// A step leads from one world to another, by their numbers.
#[derive(Clone, Copy)]
pub(crate) struct Link {
    pub(crate) from: usize,
    pub(crate) to: usize,
    /// The number, from 1, of the link before it that leads to the same world; 0 where there is none.
    pub(crate) before: usize,
}

/// The worlds from which an end of the execution is known to be reached, while they are looked for.
#[derive(Drop)]
pub(crate) struct Reaching {
    /// Whether it is known, by the numbers of the worlds.
    pub(crate) known: Vec<bool>,
    /// Links from worlds of which it wasn't known.
    pub(crate) links: Vec<Link>,
    /// By the numbers of worlds: the number, from 1, of the last link to each; 0 where there is none.
    last_to: Vec<usize>,
    /// Worlds of which it has become known, and whose links weren't gone back yet.
    fresh: Vec<usize>,
}

impl Reaching {
    /// It is known of none of so many worlds. The error is that memory ran out.
    fn none(alloc: Global, worlds: usize) -> Result<Reaching, AllocError>
        ensures { IfOk result (λ r. (o : Orders) (s : Setup) (ws : List World)
            → AreReaching o s ws r.known.items r.links.items) }
    {
        Ok(Reaching {
            known: vec![in alloc; false; worlds]?,
            links: Vec::new(alloc),
            last_to: vec![in alloc; 0usize; worlds]?,
            fresh: Vec::new(alloc),
        })
    }

    /// Whether it is known of the world of this number.
    fn is_known(&self, number: usize) -> bool
        ensures { result ≡ is_known self.now.known.items number }
    {
        if number < self.known.len() {
            self.known[number]
        } else {
            false
        }
    }

    /// It is known of the world of this number from now on. The error is that memory ran out.
    fn mark(&mut self, number: usize) -> Result<(), AllocError>
        ensures { (o : Orders) (s : Setup) (ws : List World)
            → AreReaching o s ws self.old.known.items self.old.links.items → Reaches o s ws number
            → AreReaching o s ws self.new.known.items self.new.links.items }
    {
        if number < self.known.len() && !self.known[number] {
            self.fresh.push(number)?;
            self.known[number] = true;
        }
        Ok(())
    }

    /// A step leads from the world of the one number to that of the other. The error is that memory ran out.
    fn link(&mut self, from: usize, to: usize) -> Result<(), AllocError>
        ensures { (o : Orders) (s : Setup) (ws : List World)
            → AreReaching o s ws self.old.known.items self.old.links.items → LeadsOn o s ws from to
            → AreReaching o s ws self.new.known.items self.new.links.items }
    {
        if to >= self.last_to.len() {
            return Ok(());
        }
        let before = self.last_to[to];
        self.links.push(Link { from, to, before })?;
        self.last_to[to] = self.links.len();
        Ok(())
    }

    /// Goes back over a link: where it is known of the world to which it leads, it is of the other. The error is that memory ran out.
    fn go_back(&mut self, link: Link) -> Result<(), AllocError>
        ensures { (o : Orders) (s : Setup) (ws : List World)
            → AreReaching o s ws self.old.known.items self.old.links.items
            → LeadsOn o s ws link.from link.to
            → AreReaching o s ws self.new.known.items self.new.links.items }
    {
        if self.is_known(link.to) {
            return self.mark(link.from);
        }
        Ok(())
    }

    /// Goes back over the links to the world of this number. The error is that memory ran out.
    fn go_back_from(&mut self, to: usize) -> Result<(), AllocError>
        ensures { (o : Orders) (s : Setup) (ws : List World)
            → AreReaching o s ws self.old.known.items self.old.links.items
            → AreReaching o s ws self.new.known.items self.new.links.items }
    {
        if to >= self.last_to.len() {
            return Ok(());
        }
        let mut number = self.last_to[to];
        for _ in 0..self.links.len() {
            if number == 0 || number > self.links.len() {
                return Ok(());
            }
            let link = self.links[number - 1];
            self.go_back(link)?;
            number = link.before;
        }
        Ok(())
    }

    /// It is known of the world of this number from now on, and of all from which links lead there. The error is that memory ran out.
    fn note(&mut self, number: usize) -> Result<(), AllocError>
        ensures { (o : Orders) (s : Setup) (ws : List World)
            → AreReaching o s ws self.old.known.items self.old.links.items → Reaches o s ws number
            → AreReaching o s ws self.new.known.items self.new.links.items }
    {
        self.mark(number)?;
        for _ in 0..self.known.len() {
            let Some(to) = self.fresh.pop() else {
                return Ok(());
            };
            self.go_back_from(to)?;
        }
        Ok(())
    }

    /// Whether an end is reached by a step of the world of this number that leads so; else it is noted where it leads. The error is that
    /// memory ran out.
    fn take_lead(&mut self, number: usize, lead: Lead) -> Result<bool, AllocError>
        ensures ends { IfOk result (λ b. b ≡ true → (o : Orders) (s : Setup) (ws : List World)
            → AreReaching o s ws self.new.known.items self.new.links.items
            → ((d : World) → IsLead o s ws (get_or ws number d) lead) → Reaches o s ws number) }
        ensures kept { (o : Orders) (s : Setup) (ws : List World)
            → AreReaching o s ws self.old.known.items self.old.links.items
            → ((d : World) → IsLead o s ws (get_or ws number d) lead)
            → AreReaching o s ws self.new.known.items self.new.links.items }
    {
        match lead {
            Lead::Nowhere => Ok(false),
            Lead::End => Ok(true),
            Lead::World(next) => {
                if self.is_known(next) {
                    return Ok(true);
                }
                self.link(number, next)?;
                Ok(false)
            }
        }
    }
}

/// Whether a step at this moment is one of those that are tried, where this is the earliest one at which a branch may step.
fn is_soon(orders: Orders, bound: &Option<Moment>, moment: Moment) -> bool
    ensures { result ≡ true → IsSoon orders bound.now moment }
{
    match orders {
        Orders::Every => true,
        Orders::Prompt => match bound {
            Some(least) => moment.millis() <= least.millis(),
            None => false,
        },
    }
}

/// Where the step of the branch at a place leads from a world that was met, the one of this number: to an end, or to one of those that
/// were met. The error is that memory ran out.
fn lead_of(
    probe: &mut Probe,
    alloc: Global,
    orders: Orders,
    met: &Met,
    number: usize,
    world: &World,
    place: &Place,
    bound: &Option<Moment>,
) -> Result<Lead, AllocError>
    requires there { number < length met.now.nodes.items }
    requires is { (d : World) → get_or (worlds_of met.now.nodes.items) number d ≡ bare world.now }
    ensures leads { IfOk result (λ l.
        IfSome bound.now (IsLeast (setup_of probe.old) (bare world.now))
        → IsLead orders (setup_of probe.old) (worlds_of met.now.nodes.items) (bare world.now) l) }
    ensures setup { setup_of probe.new ≡ setup_of probe.old }
{
    if !enter(probe, alloc, world)? {
        return Ok(Lead::Nowhere);
    }
    let Some(moment) = chance(probe, place) else {
        return Ok(Lead::Nowhere);
    };
    if !is_soon(orders, bound, moment) {
        return Ok(Lead::Nowhere);
    }
    let at = StepAt {
        place: place.try_clone()?,
        moment,
    };
    let _reply = probe.reply(&at)?;
    if !probe.world().is_running() {
        return Ok(Lead::End);
    }
    match met.number_of(alloc, number, place, probe.world())? {
        Some(number) => Ok(Lead::World(number)),
        None => Ok(Lead::Nowhere),
    }
}

/// Whether an end is known to be reached by a step of a world that was met; else it is noted where its steps lead. The error is that
/// memory ran out.
fn look(
    probe: &mut Probe,
    alloc: Global,
    orders: Orders,
    met: &Met,
    reaching: &mut Reaching,
    number: usize,
) -> Result<bool, AllocError>
    requires { number < length met.now.nodes.items }
    ensures ends { IfOk result (λ b. b ≡ true
        → AreReaching orders (setup_of probe.old) (worlds_of met.now.nodes.items)
        reaching.old.known.items reaching.old.links.items
        → Reaches orders (setup_of probe.old) (worlds_of met.now.nodes.items) number) }
    ensures kept { AreReaching orders (setup_of probe.old) (worlds_of met.now.nodes.items)
        reaching.old.known.items reaching.old.links.items
        → AreReaching orders (setup_of probe.old) (worlds_of met.now.nodes.items)
        reaching.new.known.items reaching.new.links.items }
    ensures setup { setup_of probe.new ≡ setup_of probe.old }
{
    let world = &met.nodes[number].world;
    let Some(turns) = turns_in(alloc, world)? else {
        return Ok(false);
    };
    let bound = bound_in(probe, alloc, orders, world, &turns)?;
    for turn in &turns {
        let lead = lead_of(
            probe,
            alloc,
            orders,
            met,
            number,
            world,
            &turn.place,
            &bound,
        )?;
        if reaching.take_lead(number, lead)? {
            return Ok(true);
        }
    }
    Ok(false)
}

/// The worlds that were met from which an end is reached: the last one is looked at first, as it is the nearest to an end, and when it is
/// known of one, that of those from which links lead there. So of most worlds one step is taken, and of none a step twice. The error is
/// that memory ran out.
fn reaching_in(
    probe: &mut Probe,
    alloc: Global,
    orders: Orders,
    met: &Met,
) -> Result<Reaching, AllocError>
    ensures reaching { IfOk result (λ r.
        AreReaching orders (setup_of probe.old) (worlds_of met.now.nodes.items) r.known.items
        r.links.items) }
    ensures setup { setup_of probe.new ≡ setup_of probe.old }
{
    let worlds = met.nodes.len();
    let mut reaching = Reaching::none(alloc, worlds)?;
    for index in 0..worlds {
        let number = worlds - 1 - index;
        if look(probe, alloc, orders, met, &mut reaching, number)? {
            reaching.note(number)?;
        }
    }
    Ok(reaching)
}

/// The number of the first of so many worlds of which it isn't known; none where it is of all.
fn first_lost(reaching: &Reaching, worlds: usize) -> Option<usize>
    ensures { is_none result ≡ true → AllBefore reaching.now.known.items worlds }
{
    for number in 0..worlds {
        if !reaching.is_known(number) {
            return Some(number);
        }
    }
    None
}

/// The steps that led to a world that was met. The error is that memory ran out.
fn stem_to(alloc: Global, nodes: &[Node], number: usize) -> Result<Vec<StepAt>, AllocError> {
    match nodes.get(number) {
        Some(node) if number > 0 => path(alloc, nodes, node.parent, node.at.try_clone()?),
        _ => Ok(Vec::new(alloc)),
    }
}

/// A step that leads from a world to one from which no end is known to be reached, and the number of that one; none where there is none.
/// The error is that memory ran out.
fn step_on(
    probe: &mut Probe,
    alloc: Global,
    orders: Orders,
    met: &Met,
    reaching: &Reaching,
    number: usize,
) -> Result<Option<(StepAt, usize)>, AllocError>
    ensures { setup_of probe.new ≡ setup_of probe.old }
{
    let Some(node) = met.nodes.get(number) else {
        return Ok(None);
    };
    let Some(turns) = turns_in(alloc, &node.world)? else {
        return Ok(None);
    };
    let bound = bound_in(probe, alloc, orders, &node.world, &turns)?;
    for turn in &turns {
        let lead = lead_of(
            probe,
            alloc,
            orders,
            met,
            number,
            &node.world,
            &turn.place,
            &bound,
        )?;
        if let Lead::World(next) = lead {
            if !reaching.is_known(next) {
                let at = StepAt {
                    place: turn.place.try_clone()?,
                    moment: turn.moment,
                };
                return Ok(Some((at, next)));
            }
        }
    }
    Ok(None)
}

/// The first steps, so many of them, behind others; and those that are left. The error is that memory ran out.
fn lasso_of(
    alloc: Global,
    stem: Vec<StepAt>,
    steps: Vec<StepAt>,
    count: usize,
) -> Result<Lasso, AllocError> {
    let mut stem = stem;
    let mut round = Vec::new(alloc);
    for (index, at) in steps.into_iter().enumerate() {
        if index < count {
            stem.push(at)?;
        } else {
            round.push(at)?;
        }
    }
    Ok(Lasso { stem, round })
}

/// An order that never ends, through the world of this number, from which no end is reached: it goes on from there by the first step that
/// leads to such a world, until one comes again. The error is that memory ran out.
fn lasso_through(
    probe: &mut Probe,
    alloc: Global,
    orders: Orders,
    met: &Met,
    reaching: &Reaching,
    first: usize,
) -> Result<Lasso, AllocError>
    ensures { setup_of probe.new ≡ setup_of probe.old }
{
    let stem = stem_to(alloc, &met.nodes, first)?;
    let mut steps = Vec::new(alloc);
    let mut came = vec![in alloc; None; met.nodes.len()]?;
    let mut number = first;
    for _ in 0..=met.nodes.len() {
        if number >= came.len() {
            break;
        }
        if let Some(count) = came[number] {
            return lasso_of(alloc, stem, steps, count);
        }
        came[number] = Some(steps.len());
        let Some((at, next)) = step_on(probe, alloc, orders, met, reaching, number)? else {
            break;
        };
        steps.push(at)?;
        number = next;
    }
    let count = steps.len();
    lasso_of(alloc, stem, steps, count)
}

/// What is known of orders that never end.
#[derive(Drop)]
pub(crate) struct Endless {
    /// One of them.
    pub(crate) endless: Option<Lasso>,
    /// Whether there is none where none is told.
    pub(crate) whole: bool,
}

/// None is told; and there is none, if this is true.
fn nothing_endless(whole: bool) -> Endless
    ensures none { is_none result.endless ≡ true }
    ensures whole { result.whole ≡ whole }
{
    Endless {
        endless: None,
        whole,
    }
}

/// An order that never ends, through the first world that was met from which no end is reached; none where one is from each, and where
/// worlds were left out. The error is that memory ran out.
pub(crate) fn endless_in(
    probe: &mut Probe,
    alloc: Global,
    orders: Orders,
    met: &Met,
    complete: bool,
) -> Result<Endless, AllocError>
    ensures none { IfOk result (λ x. complete ≡ true → x.whole ≡ true → is_none x.endless ≡ true
        → All (CanEnd orders (setup_of probe.old)) (worlds_of met.now.nodes.items)) }
    ensures lasso { IfOk result (λ x. IfSome x.endless (IsLasso orders (setup_of probe.old))) }
    ensures setup { setup_of probe.new ≡ setup_of probe.old }
{
    if !complete {
        return Ok(nothing_endless(true));
    }
    let reaching = reaching_in(probe, alloc, orders, met)?;
    let Some(first) = first_lost(&reaching, met.nodes.len()) else {
        return Ok(nothing_endless(true));
    };
    let lasso = lasso_through(probe, alloc, orders, met, &reaching, first)?;
    if !is_lasso(probe, alloc, orders, &lasso)? {
        return Ok(nothing_endless(false));
    }
    Ok(Endless {
        endless: Some(lasso),
        whole: true,
    })
}
