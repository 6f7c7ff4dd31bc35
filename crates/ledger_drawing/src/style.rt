//! How the drawing looks.

/// Its style, a line each; the second half is for a dark background.
pub(crate) const STYLE: &str = "\
<style>
text{font-family:system-ui,sans-serif;font-size:11px}
.title{font-size:15px;font-weight:600}
.page{fill:#ffffff}
.ink{fill:#1f2328}
.faint{fill:#59636e}
.live{fill:#1f2328}
.damaged{fill:#cf222e;stroke:#1f2328;stroke-width:2}
.superblock{fill:#424a53}
.head{fill:#8250df}
.snapshot{fill:#bf8700}
.record{fill:#0969da}
.open{fill:#1a7f37}
.free{fill:#c8e1fb}
.closed{fill:#cdebd3}
.unused{fill:#e6eaef}
.unknown{fill:#afb8c1}
@media (prefers-color-scheme: dark){
.page{fill:#0d1117}
.ink,.live{fill:#f0f6fc}
.faint{fill:#9198a1}
.damaged{fill:#f85149;stroke:#f0f6fc}
.superblock{fill:#c9d1d9}
.head{fill:#a371f7}
.snapshot{fill:#d29922}
.record{fill:#388bfd}
.open{fill:#3fb950}
.free{fill:#24456b}.closed{fill:#22502f}
.unused{fill:#30363d}.unknown{fill:#6e7681}
}
</style>";
