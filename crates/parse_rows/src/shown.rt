//! Trees as text: each place behind an `@`, operators by their names, names and numbers as they are.
use cov_tree::*;
use std::alloc::Global;

/// A text that grows. What can't be kept is missing.
#[derive(Drop)]
pub(super) struct Shown {
    alloc: Global,
    out: Vec<u8>,
}

impl Shown {
    pub(super) fn new(alloc: Global) -> Shown {
        Shown {
            alloc,
            out: Vec::new(alloc),
        }
    }

    /// What was shown; nothing where a name isn't UTF-8.
    pub(super) fn as_str(&self) -> &str {
        std::str::from_utf8(self.out.as_slice()).unwrap_or("")
    }

    fn put(&mut self, text: &[u8]) {
        let _ = self.out.extend_from_slice(text);
    }

    fn put_told(&mut self, told: Option<String>) {
        if let Some(told) = told {
            self.put(told.as_bytes());
        }
    }

    fn put_at(&mut self, at: u32) {
        let told = format!(in self.alloc; "@{at}").ok();
        self.put_told(told);
    }

    pub(super) fn design(&mut self, design: &DesignText) {
        for decl in design.decls.as_slice() {
            self.decl(decl);
            self.put(b"\n");
        }
    }

    fn decl(&mut self, decl: &Decl) {
        match decl {
            Decl::Enum {
                name,
                base,
                names,
                at,
            } => {
                self.put(b"enum ");
                if let Some(base) = base {
                    self.type_text(base);
                }
                self.put(b"{");
                for (constant, value) in names.as_slice() {
                    self.put(constant.as_slice());
                    self.optional(b"=", value);
                    self.put(b",");
                }
                self.put(b"}");
                self.put(name.as_slice());
                self.put_at(*at);
            }
            Decl::Var { typ, name, at } => {
                self.type_text(typ.get());
                self.put(b" ");
                self.put(name.as_slice());
                self.put_at(*at);
            }
            Decl::Group {
                name,
                formals,
                event,
                args,
                members,
                at,
            } => {
                self.put(b"group ");
                self.put(name.as_slice());
                self.put(b"(");
                for formal in formals.as_slice() {
                    self.formal(formal);
                }
                self.put(b")");
                for edge in event.as_slice() {
                    self.edge(edge);
                }
                for arg in args.as_slice() {
                    self.put(b" sample ");
                    self.formal(arg);
                }
                self.put_at(*at);
                for member in members.as_slice() {
                    self.member(member);
                }
            }
            Decl::Instance {
                group,
                name,
                args,
                at,
            } => {
                self.put(group.as_slice());
                self.put(b" ");
                self.put(name.as_slice());
                self.put(b"(");
                self.exprs(args.as_slice());
                self.put(b")");
                self.put_at(*at);
            }
        }
    }

    fn formal(&mut self, formal: &Formal) {
        self.put(if formal.by_ref { b"ref " } else { b"in " });
        self.type_text(&formal.typ);
        self.put(b" ");
        self.put(formal.name.as_slice());
        self.optional(b"=", &formal.default);
        self.put_at(formal.at);
        self.put(b";")
    }

    fn edge(&mut self, edge: &EdgeText) {
        let told = format!(in self.alloc; " {:?} ", edge.kind).ok();
        self.put_told(told);
        self.put(edge.name.as_slice());
        self.optional(b" iff ", &edge.guard);
    }

    fn member(&mut self, member: &Member) {
        self.put(b"\n  ");
        match member {
            Member::Opt(option) => self.option(option),
            Member::Point(point) => {
                self.label(&point.label);
                self.put(b"point ");
                self.expr(&point.expr);
                self.optional(b" iff ", &point.guard);
                self.put_at(point.at);
                for option in point.options.as_slice() {
                    self.put(b" ");
                    self.option(option);
                }
                for bins in point.bins.as_slice() {
                    self.put(b" ");
                    self.bins(bins);
                }
            }
            Member::Cross(cross) => {
                self.label(&cross.label);
                self.put(b"cross ");
                for point in cross.points.as_slice() {
                    self.put(point.as_slice());
                    self.put(b",");
                }
                self.optional(b" iff ", &cross.guard);
                self.put_at(cross.at);
                for option in cross.options.as_slice() {
                    self.put(b" ");
                    self.option(option);
                }
                for bins in cross.bins.as_slice() {
                    self.put(b" ");
                    self.cross_bins(bins);
                }
            }
        }
    }

    fn label(&mut self, label: &Option<Name>) {
        if let Some(label) = label {
            self.put(label.as_slice());
            self.put(b":");
        }
    }

    fn option(&mut self, option: &OptDecl) {
        self.put(if option.on_type { b"type." } else { b"option." });
        self.put(option.name.as_slice());
        self.put(b"=");
        match &option.value {
            OptText::Number(number) => self.expr(number),
            OptText::Text(text) => {
                self.put(b"'");
                self.put(text.as_slice());
                self.put(b"'");
            }
        }
        self.put_at(option.at);
    }

    fn word(&mut self, word: Word) {
        let told = format!(in self.alloc; "{word:?} ").ok();
        self.put_told(told);
    }

    fn bins(&mut self, bins: &BinsDecl) {
        if bins.wildcard {
            self.put(b"wildcard ");
        }
        self.word(bins.word);
        self.put(bins.name.as_slice());
        match &bins.size {
            Size::Scalar => {}
            Size::Open => self.put(b"[]"),
            Size::Fixed(count) => {
                self.put(b"[");
                self.expr(count);
                self.put(b"]");
            }
        }
        self.put(b"=");
        self.right(&bins.right);
        self.optional(b" iff ", &bins.guard);
        self.put_at(bins.at);
    }

    fn right(&mut self, right: &Right) {
        match right {
            Right::Ranges { elems, keep } => {
                self.put(b"{");
                self.elems(elems);
                self.put(b"}");
                self.optional(b" with ", keep);
            }
            Right::Whole { name, keep } => {
                self.put(name.as_slice());
                self.put(b" with ");
                self.expr(keep);
            }
            Right::Trans(sequences) => {
                for steps in sequences.as_slice() {
                    self.put(b"(");
                    for step in steps.as_slice() {
                        self.step(step);
                    }
                    self.put(b")");
                }
            }
            Right::Default => self.put(b"default"),
            Right::DefaultSequence => self.put(b"default sequence"),
        }
    }

    fn step(&mut self, step: &Step) {
        self.put(b"<");
        self.elems(&step.elems);
        match &step.times {
            Times::Once => {}
            Times::Consec { low, high } => self.times(b"*", low.get(), high.get()),
            Times::Goto { low, high } => self.times(b"->", low.get(), high.get()),
            Times::NonConsec { low, high } => self.times(b"=", low.get(), high.get()),
        }
        self.put(b">");
        self.put_at(step.at);
    }

    fn times(&mut self, way: &[u8], low: &Expr, high: &Expr) {
        self.put(way);
        self.expr(low);
        self.put(b":");
        self.expr(high);
    }

    fn elems(&mut self, elems: &List<Elem>) {
        let mut is_first = true;
        for elem in elems.as_slice() {
            if !is_first {
                self.put(b",");
            }
            is_first = false;
            self.elem(elem);
        }
    }

    fn elem(&mut self, elem: &Elem) {
        match elem {
            Elem::One(expr) => self.expr(expr),
            Elem::Span { low, high, at } => {
                self.put(b"[");
                self.end(low);
                self.put(b":");
                self.end(high);
                self.put(b"]");
                self.put_at(*at);
            }
        }
    }

    fn end(&mut self, end: &End) {
        match end {
            End::Value(expr) => self.expr(expr),
            End::Dollar { at } => {
                self.put(b"$");
                self.put_at(*at);
            }
        }
    }

    fn cross_bins(&mut self, bins: &CrossBins) {
        self.word(bins.word);
        self.put(bins.name.as_slice());
        self.put(b"=");
        self.sel(&bins.sel);
        self.optional(b" iff ", &bins.guard);
        self.put_at(bins.at);
    }

    fn sel(&mut self, sel: &Sel) {
        match sel {
            Sel::BinsOf {
                point,
                bin,
                meets,
                at,
            } => {
                self.put(point.as_slice());
                if let Some(bin) = bin {
                    self.put(b".");
                    self.put(bin.as_slice());
                }
                if let Some(meets) = meets {
                    self.put(b"{");
                    self.elems(meets);
                    self.put(b"}");
                }
                self.put_at(*at);
            }
            Sel::Not(inner) => {
                self.put(b"!");
                self.sel(inner.get());
            }
            Sel::And(left, right) => {
                self.put(b"(");
                self.sel(left.get());
                self.put(b"&&");
                self.sel(right.get());
                self.put(b")");
            }
            Sel::Or(left, right) => {
                self.put(b"(");
                self.sel(left.get());
                self.put(b"||");
                self.sel(right.get());
                self.put(b")");
            }
        }
    }

    fn type_text(&mut self, typ: &TypeText) {
        match typ {
            TypeText::Vector { signed, span, at } => {
                self.put(if *signed { b"signed vector" } else { b"vector" });
                if let Some((high, low)) = span {
                    self.put(b"[");
                    self.expr(high);
                    self.put(b":");
                    self.expr(low);
                    self.put(b"]");
                }
                self.put_at(*at);
            }
            TypeText::Fixed { width, signed } => {
                let sign = if *signed { 's' } else { 'u' };
                let bits = width.bits();
                let told = format!(in self.alloc; "{sign}{bits}").ok();
                self.put_told(told);
            }
            TypeText::Named { name, at } => {
                self.put(name.as_slice());
                self.put_at(*at);
            }
        }
    }

    fn optional(&mut self, before: &[u8], expr: &Option<Expr>) {
        match expr {
            Some(expr) => {
                self.put(before);
                self.expr(expr);
            }
            None => {}
        }
    }

    #[cycle(expr)]
    fn exprs(&mut self, exprs: &[Expr]) {
        let mut is_first = true;
        for expr in exprs {
            if !is_first {
                self.put(b",");
            }
            is_first = false;
            self.expr(expr);
        }
    }

    #[cycle(expr)]
    fn expr(&mut self, expr: &Expr) {
        match expr {
            Expr::Num { lit, at } => {
                let told = format!(in self.alloc; "{}", lit.bits).ok();
                self.put_told(told);
                self.put_at(*at);
            }
            Expr::Name { name, at } => {
                self.put(name.as_slice());
                self.put_at(*at);
            }
            Expr::Bit { name, index, at } => {
                self.put(name.as_slice());
                self.put(b"[");
                self.expr(index.get());
                self.put(b"]");
                self.put_at(*at);
            }
            Expr::Part {
                name,
                high,
                low,
                at,
            } => {
                self.put(name.as_slice());
                self.put(b"[");
                self.expr(high.get());
                self.put(b":");
                self.expr(low.get());
                self.put(b"]");
                self.put_at(*at);
            }
            Expr::Concat { parts, at } => {
                self.put(b"{");
                self.exprs(parts.as_slice());
                self.put(b"}");
                self.put_at(*at);
            }
            Expr::Unary { op, arg, at } => {
                let told = format!(in self.alloc; "({op:?} ").ok();
                self.put_told(told);
                self.expr(arg.get());
                self.put(b")");
                self.put_at(*at);
            }
            Expr::Binary {
                op,
                left,
                right,
                at,
            } => {
                self.put(b"(");
                self.expr(left.get());
                let told = format!(in self.alloc; " {op:?} ").ok();
                self.put_told(told);
                self.expr(right.get());
                self.put(b")");
                self.put_at(*at);
            }
            Expr::Cond { test, yes, no, at } => {
                self.put(b"(");
                self.expr(test.get());
                self.put(b"?");
                self.expr(yes.get());
                self.put(b":");
                self.expr(no.get());
                self.put(b")");
                self.put_at(*at);
            }
        }
    }
}
