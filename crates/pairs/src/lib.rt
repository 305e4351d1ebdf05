// A table that leans on a base: what it is, as definitions (specs/Lean.antt), and their laws. There is no code here.
