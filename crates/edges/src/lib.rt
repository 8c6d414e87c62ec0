// The edge detector, on words of 64 ticks: a few shifts and masks of A, P and N give the leads, trails, runs and edges of 64 ticks at once.
// Each contract says which plane of the trace a word holds, in the terms of the rules.
// A trail shows two ticks late and an edge seven ticks after that, so the words of leads and calm ticks start two ticks before those of A, P and N,
// and the words of edges seven ticks before those of leads.
#![tactic(auto)]

ghost use Rattle.edges.specs.Detection.{Leads, Trails, Chain, NoTrail, Long, Edges, Detected};

use plane::Stretch;

// The leads of the 64 ticks that start two before those of a and p.
fn leads(a: Stretch, p: Stretch) -> u64
    ensures { Leads a.word p.word a.before p.before result }
{
    a.back(2) & (!a.back(3) | (a.back(4) & p.back(2) & !p.back(3)))
}

// The ticks, of the 64 that start two before those of a, p and n, that are a trail if video is high there.
fn trails(a: Stretch, p: Stretch, n: Stretch) -> u64
    ensures { Trails a.word p.word n.word a.before p.before n.before result }
{
    !a.back(2) | (!n.back(3) & n.back(2) & (!a.back(1) | (n.back(1) & (!a.word | n.word | p.word))))
}

// The chain: the ticks s+4j, j from 1 on, of the runs, s being the run's lead. A tick is in it if it and the three before are calm, and a lead or a
// tick of the chain stands four before. The word is filled from its low end by steps that double in length; `before` is that of the 64 ticks before.
fn chain(lead: Stretch, calm: Stretch, before: u64) -> u64
    ensures { Chain lead.word lead.before calm.word calm.before before result }
{
    let step4 = calm.word & calm.back(1) & calm.back(2) & calm.back(3);
    let step8 = step4 & (step4 << 4);
    let step16 = step8 & (step8 << 8);
    let step32 = step16 & (step16 << 16);
    let first = (lead.back(4) | (before >> 60)) & step4;
    let reach4 = first | ((first << 4) & step4);
    let reach8 = reach4 | ((reach4 << 8) & step8);
    let reach16 = reach8 | ((reach8 << 16) & step16);
    reach16 | ((reach16 << 32) & step32)
}

// The edges of the 64 ticks that start seven before those of lead, calm and chain. With x for the tick of the edge, a word that starts k back is that
// of the ticks x+7-k.
// Actual: a lead at x, calm at x+1. In a run that is calm from x+1 to x+3, extra: x is in the chain, and up to x+7 no trail comes before a lead.
// Pseudo: a trail at x+4 ends a run whose lead is at x-2 or before.
fn edges(lead: Stretch, calm: Stretch, chain: Stretch) -> u64
    ensures { Edges lead.word lead.before calm.word calm.before chain.word chain.before result }
{
    let untrailed = no_trail(lead, calm);
    let drawn_out = long(calm, chain);
    let calm_1 = calm.back(6);
    let pseudo = (!calm.back(3) & !lead.back(3)) & drawn_out;
    let goes_on = calm_1 & calm.back(5) & calm.back(4);
    (lead.back(7) & calm_1) | (goes_on & ((chain.back(7) & untrailed) | pseudo))
}

// The ticks x, of those of the edges, after which no trail from x+4 to x+7 comes before a lead.
fn no_trail(lead: Stretch, calm: Stretch) -> u64
    ensures { NoTrail lead.word lead.before calm.word calm.before result }
{
    let by_7 = lead.word | calm.word;
    let by_6 = lead.back(1) | (calm.back(1) & by_7);
    let by_5 = lead.back(2) | (calm.back(2) & by_6);
    lead.back(3) | (calm.back(3) & by_5)
}

// The ticks x, of those of the edges, in a run whose lead is at x-2 or before, if it has not ended by x+3.
fn long(calm: Stretch, chain: Stretch) -> u64
    ensures { Long calm.word calm.before chain.word chain.before result }
{
    calm.back(7) & calm.back(8) & (chain.back(7) | chain.back(6) | chain.back(5) | chain.back(4))
}

// The words of the 64 ticks before: A, P, N, and the leads, calm ticks and chain, which start two ticks earlier.
#[derive(Clone, Copy)]
pub struct Past {
    pub a: u64,
    pub p: u64,
    pub n: u64,
    pub lead: u64,
    pub calm: u64,
    pub chain: u64,
}

// Leads, calm ticks and chain up to two ticks before the newest, and edges up to nine before it.
#[derive(Clone, Copy, Default)]
pub struct Found {
    pub lead: u64,
    pub calm: u64,
    pub chain: u64,
    pub edge: u64,
}

// What the next 64 ticks' A, P and N show. A calm tick is neither a lead nor, if video is high, a trail.
fn detect(past: Past, a: u64, p: u64, n: u64) -> Found
    ensures { Detected past a p n result }
{
    let a = Stretch::new(past.a, a);
    let p = Stretch::new(past.p, p);
    let n = Stretch::new(past.n, n);
    let lead = leads(a, p);
    let trail = trails(a, p, n);
    let calm = !lead & !trail;
    let leads = Stretch::new(past.lead, lead);
    let calms = Stretch::new(past.calm, calm);
    let links = chain(leads, calms, past.chain);
    let chains = Stretch::new(past.chain, links);
    let edge = edges(leads, calms, chains);
    Found {
        lead,
        calm,
        chain: links,
        edge,
    }
}

// The same at less cost where neither these 64 ticks nor the 64 before have A.
pub fn detect_or_skip(past: Past, a: u64, p: u64, n: u64) -> Found
    ensures { Detected past a p n result }
{
    if (a | past.a) == 0 {
        return Found::default();
    }
    detect(past, a, p, n)
}
