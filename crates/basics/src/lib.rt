// What every layer above uses, definitions and laws alone: a choice by a test.
#![tactic(auto)]
